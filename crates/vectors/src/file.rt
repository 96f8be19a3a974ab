// Where the fields of a vector stand in the file of vectors.
ghost use Rattle.std.specs.Prelude.{◌≡◌, ◌≤◌, length};
ghost use Rattle.vectors.specs.File.{field_at, entry_at};

use numbers::number_at;

// The bytes from the first place up to the second.
#[derive(Clone, Copy, Debug, PartialEq, Eq)]
pub struct Part {
    pub start: usize,
    pub end: usize,
}

// A vector's fields.
#[derive(Clone, Copy, Debug, PartialEq, Eq)]
pub struct Vector {
    pub name: Part,
    pub input: Part,
    pub output: Part,
}

// The file ends inside a field, or a field is too long.
#[derive(Clone, Copy, Debug, PartialEq, Eq)]
pub struct Cut;

// Room for the longest file of vectors, and a byte more.
pub const FILE_ROOM: usize = 900001;

// How many bytes tell the length of a name, and of an input or an output.
const NAME_WIDTH: usize = 1;

const BYTES_WIDTH: usize = 4;

// The longest field that the format allows.
const LONGEST_FIELD: u64 = 60000;

// The field whose length is told by so many bytes at a place.
#[tactic(auto, unfolding(crate::specs::File::field_at))]
fn field_at(file: &[u8], at: usize, width: usize) -> Result<Part, Cut>
    requires { (at ≤ length file.now) × (width ≤ 8) }
    ensures { result ≡ field_at at width file.now }
{
    if file.len() - at < width {
        return Err(Cut);
    }
    let long = number_at(file, at, width);
    if LONGEST_FIELD < long {
        return Err(Cut);
    }
    let start = at + width;
    let long = long as usize;
    if file.len() - start < long {
        return Err(Cut);
    }
    let end = start + long;
    Ok(Part { start, end })
}

// The vector that stands at a place, or none where the byte 0 that ends the file stands there.
#[tactic(auto, using(crate::specs::FileLaws::field_within), unfolding(crate::specs::File::entry_at))]
pub fn entry_at(file: &[u8], at: usize) -> Result<Option<Vector>, Cut>
    requires { at ≤ length file.now }
    ensures { result ≡ entry_at at file.now }
{
    let name = field_at(file, at, NAME_WIDTH)?;
    if name.start == name.end {
        return Ok(None);
    }
    let input = field_at(file, name.end, BYTES_WIDTH)?;
    let output = field_at(file, input.end, BYTES_WIDTH)?;
    Ok(Some(Vector {
        name,
        input,
        output,
    }))
}
