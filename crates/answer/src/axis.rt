// The columns of a page, as a refusal names them. Numbers and no enum: `Refusal::on_column` promises to hold any number, and the C face hands it on.

// No column of a page.
pub const NONE: u8 = 0;
// The x column.
pub const X: u8 = 1;
// The y column.
pub const Y: u8 = 2;
