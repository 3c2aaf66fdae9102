// The table of the types: for each, how many parts, how many vertices in each part, and whether the parts are rings.
ghost use Rattle.std.specs.Prelude.{◌≡◌, ◌≤◌};
ghost use Rattle.types.specs.Types.{last_type, type_row};

// The types. Numbers and no enum: a type is a byte of a file or of a lent list, any byte, and `parts_rule` promises to judge it.
pub const EMPTY: u8 = 0;

pub const POINT: u8 = 1;

pub const LINE_STRING: u8 = 2;

pub const POLYGON: u8 = 3;

pub const MULTI_POINT: u8 = 4;

pub const MULTI_LINE_STRING: u8 = 5;

pub const MULTI_POLYGON: u8 = 6;

// A row: least and most parts; least and most vertices in each part; and whether each part is a ring.
#[derive(Clone, Copy)]
pub struct TypeRow {
    pub least_parts: u16,
    pub most_parts: u16,
    pub least_vertices: u16,
    pub most_vertices: u16,
    pub rings: bool,
}

// "Or more": the most that a part count or a part length can say.
const MORE: u16 = 65535;

// The least vertices of a line.
const LINE_VERTICES: u16 = 2;

// The least vertices of a ring: three corners, and the first of them again.
const RING_VERTICES: u16 = 4;

// The rows by type. Each is written out: a function that makes a row of its numbers was tried, and a constant's value can't call one.
const ROWS: [TypeRow; 7] = [
    // 0: empty
    TypeRow {
        least_parts: 0,
        most_parts: 0,
        least_vertices: 0,
        most_vertices: 0,
        rings: false,
    },
    // 1: Point
    TypeRow {
        least_parts: 1,
        most_parts: 1,
        least_vertices: 1,
        most_vertices: 1,
        rings: false,
    },
    // 2: LineString
    TypeRow {
        least_parts: 1,
        most_parts: 1,
        least_vertices: LINE_VERTICES,
        most_vertices: MORE,
        rings: false,
    },
    // 3: Polygon
    TypeRow {
        least_parts: 1,
        most_parts: MORE,
        least_vertices: RING_VERTICES,
        most_vertices: MORE,
        rings: true,
    },
    // 4: MultiPoint
    TypeRow {
        least_parts: 1,
        most_parts: MORE,
        least_vertices: 1,
        most_vertices: 1,
        rings: false,
    },
    // 5: MultiLineString
    TypeRow {
        least_parts: 1,
        most_parts: MORE,
        least_vertices: LINE_VERTICES,
        most_vertices: MORE,
        rings: false,
    },
    // 6: MultiPolygon
    TypeRow {
        least_parts: 1,
        most_parts: MORE,
        least_vertices: RING_VERTICES,
        most_vertices: MORE,
        rings: true,
    },
];

// The row of a type.
pub fn row_of(t: u8) -> TypeRow
    requires { t ≤ last_type }
    ensures { result ≡ type_row t }
{
    ROWS[t as usize]
}
