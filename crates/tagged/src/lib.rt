// Any file of tagged fields: a one-byte tag, a two-byte length, the body; numbers have their low byte first. No tag is known here.
// A field is the bytes from its first one on, to the end of the input. Any place may be asked: a byte past the end counts as 0.
#![tactic(auto)]

ghost use Rattle.std.specs.Prelude.{◌≡◌, leb, length, drop};
ghost use Rattle.paper.specs.View.{padded};
ghost use Rattle.paper.specs.Fields.{number_at, tag, body_length, field_length};

// The bytes of a number of N at a place.
fn bytes_at<const N: usize>(bytes: &[u8], at: usize) -> [u8; N]
    ensures { result ≡ padded N 0 (drop at bytes.now) }
{
    let rest = &bytes[at.min(bytes.len())..];
    if let Some(all) = rest.first_chunk() {
        return *all;
    }
    std::array::from_fn(|i| rest.get(i).copied().unwrap_or(0))
}

// The number of two bytes at a place.
#[tactic(auto, using(crate::proofs::Read::low_first_2))]
pub fn number_of_2(bytes: &[u8], at: usize) -> u16
    ensures { result ≡ number_at at 2 bytes.now }
{
    u16::from_le_bytes(bytes_at(bytes, at))
}

// The number of four bytes at a place.
#[tactic(auto, using(crate::proofs::Read::low_first_4))]
pub fn number_of_4(bytes: &[u8], at: usize) -> u32
    ensures { result ≡ number_at at 4 bytes.now }
{
    u32::from_le_bytes(bytes_at(bytes, at))
}

pub fn tag_of(field: &[u8]) -> u8
    ensures { result ≡ tag field.now }
{
    field.first().copied().unwrap_or(0)
}

// The length of the body.
pub fn body_length(field: &[u8]) -> u16
    ensures { result ≡ body_length field.now }
{
    number_of_2(field, 1)
}

// The length of the whole field: tag, length and body.
pub fn field_length(field: &[u8]) -> usize
    ensures { result ≡ field_length field.now }
{
    3 + usize::from(body_length(field))
}

// Whether the field is whole: its body is not cut.
pub fn is_whole(field: &[u8]) -> bool
    ensures { result ≡ leb (field_length field.now) (length field.now) }
{
    field_length(field) <= field.len()
}
