// The service that a record asks for, by its first byte: a number in the record, and each is run in this one place.
use crate::fetched::fetched;
use crate::{columns, files, malformed, writing};

// Serves a record and prints its line. Whether another case may follow.
pub(crate) fn served(input: &[u8]) -> bool {
    let Some(&service) = input.first() else {
        return malformed();
    };
    match service {
        0 => files::checked(input),
        1 => files::counted(input),
        2 => files::searched(input),
        3 => fetched(input),
        4 => columns::written(input),
        5 => columns::values(input),
        6 => columns::stepped(input),
        7 | 8 | 9 => writing::stepped(input, service),
        _ => malformed(),
    }
}
