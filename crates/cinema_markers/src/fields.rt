// Fields of marker segments, and their bytes.
ghost use Rattle.std.specs.Prelude.{◌≡◌, ◌++◌, ◌+◌, ◌*◌, ◌≤◌, length};
ghost use Rattle.arrayvec.specs.ArrayVec.{array_vec_len};
ghost use Rattle.cinema_markers.specs.Fields.{field_bytes, segment};

use arrayvec::ArrayVec;

/// A field of a marker segment (ISO/IEC 15444-1, A.1.3), written from its high byte on.
#[derive(Clone, Copy, Debug, PartialEq, Eq)]
pub enum Field {
    /// 8 bits.
    Byte(u8),
    /// 16 bits.
    Short(u16),
    /// 32 bits.
    Long(u32),
}

fn push_field(out: &mut ArrayVec<u8, 192>, field: Field)
    requires { array_vec_len out.old + 4 ≤ 192 }
    ensures { out.new.items ≡ out.old.items ++ field_bytes field }
{
    match field {
        Field::Byte(n) => out.push(n),
        Field::Short(n) => {
            let _fits = out.try_extend_from_slice(&n.to_be_bytes());
        }
        Field::Long(n) => {
            let _fits = out.try_extend_from_slice(&n.to_be_bytes());
        }
    }
}

/// Appends the bytes of fields in order, at most four of each.
pub fn push_fields(out: &mut ArrayVec<u8, 192>, fields: &[Field])
    requires { array_vec_len out.old + 4 * length fields.now ≤ 192 }
    ensures { out.new.items ≡ out.old.items ++ segment fields.now }
{
    for field in fields {
        push_field(out, *field);
    }
}
