// After header/mod.rs, what serde derives: which field a key names, how its value is read, and which fields must be there (01, 'Header text', its third
// paragraph). A field's number is its place in its table; a key that names none has the number behind the last.
#![tactic(auto)]

ghost use Rattle.std.specs.Prelude.{◌≡◌, ◌≤◌};
ghost use Rattle.written.specs.Record.{global_fields, stream_group, position_fields, position_group};
ghost use Rattle.head_de_values.specs.Values.{kind_from};
ghost use Rattle.head_fields.specs.Names.{name_index};
ghost use Rattle.head_fields.specs.Fields.{fields_of, field_index, kind_at, any_missing};

use head_de_values::Kind;

// The fields of a section, or of the groups of one.
#[derive(Clone, Copy)]
pub enum Table {
    Global,
    // none: each field stands in a group
    Stream,
    StreamGroup,
    Position,
    PositionGroup,
}

// The number of the name that w is, among names that end with a space each; behind the last where w is none of them. `same` is how many bytes of w the name
// at hand has been so far, or more than w has once they differ. One loop over all names: a comparison for each name, which the compiler unrolls, takes
// three to six times the code.
fn name_index(names: &[u8], w: &[u8]) -> usize
    ensures { result ≡ name_index w.now 0 names.now }
{
    let mut name = 0;
    let mut same = 0;
    for &b in names {
        if b == b' ' {
            if same == w.len() {
                return name;
            }
            name = name + 1;
            same = 0;
        } else if same < w.len() && b == w[same] {
            same = same + 1;
        } else {
            same = w.len() + 1;
        }
    }
    name
}

// The number of the field that a key names.
pub fn field_of(table: Table, w: &[u8]) -> usize
    ensures { result ≡ field_index (fields_of table) w.now }
{
    match table {
        Table::Global => name_index(
            b"HTS_VOICE_VERSION SAMPLING_FREQUENCY FRAME_PERIOD NUM_STATES NUM_STREAMS STREAM_TYPE FULLCONTEXT_FORMAT FULLCONTEXT_VERSION GV_OFF_CONTEXT COMMENT ",
            w,
        ),
        Table::Stream => 0,
        Table::StreamGroup => name_index(b"VECTOR_LENGTH NUM_WINDOWS IS_MSD USE_GV OPTION ", w),
        Table::Position => name_index(b"DURATION_PDF DURATION_TREE ", w),
        Table::PositionGroup => name_index(b"STREAM_WIN STREAM_PDF STREAM_TREE GV_PDF GV_TREE ", w),
    }
}

fn global_kind(field: usize) -> Kind
    ensures { kind_from result ≡ kind_at global_fields field }
{
    match field {
        0 => Kind::Text,
        1 => Kind::Number,
        2 => Kind::Number,
        3 => Kind::Number,
        4 => Kind::Number,
        5 => Kind::Strings,
        6 => Kind::Text,
        7 => Kind::Text,
        8 => Kind::Strings,
        9 => Kind::Text,
        _ => Kind::Anything,
    }
}

fn stream_group_kind(field: usize) -> Kind
    ensures { kind_from result ≡ kind_at stream_group field }
{
    match field {
        0 => Kind::Number,
        1 => Kind::Number,
        2 => Kind::Flag,
        3 => Kind::Flag,
        4 => Kind::Strings,
        _ => Kind::Anything,
    }
}

fn position_kind(field: usize) -> Kind
    ensures { kind_from result ≡ kind_at position_fields field }
{
    match field {
        0 => Kind::Pair,
        1 => Kind::Pair,
        _ => Kind::Anything,
    }
}

fn position_group_kind(field: usize) -> Kind
    ensures { kind_from result ≡ kind_at position_group field }
{
    match field {
        0 => Kind::Pairs,
        1 => Kind::Pair,
        2 => Kind::Pair,
        3 => Kind::PerhapsPair,
        4 => Kind::PerhapsPair,
        _ => Kind::Anything,
    }
}

// How the value of a field is read.
pub fn kind_of(table: Table, field: usize) -> Kind
    ensures { kind_from result ≡ kind_at (fields_of table) field }
{
    match table {
        Table::Global => global_kind(field),
        Table::Stream => Kind::Anything,
        Table::StreamGroup => stream_group_kind(field),
        Table::Position => position_kind(field),
        Table::PositionGroup => position_group_kind(field),
    }
}

// Whether one of the first n fields was not seen. In each table the required fields stand first.
pub fn missing(seen: [bool; 10], n: usize) -> bool
    requires { n ≤ 10 }
    ensures { result ≡ any_missing seen n }
{
    for k in (0..n).rev() {
        if !seen[k] {
            return true;
        }
    }
    false
}
