//! Positions of bytes in their file.
ghost use Rattle.std.specs.Prelude.{◌≡◌, ◌+◌, ◌<◌, ◌≤◌, ◌^◌, length};
ghost use Rattle.cs_lexer.specs.Spots as spec;
ghost use Rattle.cs_lexer.specs.Spots.{IsWithin};

use cs_ast::Place;

/// The position of a byte, and whether only spaces and tabs are before it on its line.
#[derive(Clone, Copy)]
pub struct Spot {
    pub place: Place,
    pub is_line_start: bool,
}

/// Returns the beginning of the first file.
pub fn start() -> Spot
    ensures { result ≡ spec.start }
{
    line_of(0, 1)
}

/// Returns the beginning of a line.
pub fn line_of(file: u32, line: u32) -> Spot
    ensures { result ≡ spec.line_of file line }
{
    let place = Place {
        file,
        line,
        column: 1,
    };
    Spot {
        place,
        is_line_start: true,
    }
}

// Returns the position of the byte after this one.
fn step(spot: Spot, byte: u8) -> Spot
    requires line { spot.place.line + 1 < 2 ^ 32 }
    requires column { spot.place.column + 1 < 2 ^ 32 }
    ensures { result ≡ spec.step spot byte }
{
    if byte == b'\n' {
        return line_of(spot.place.file, spot.place.line + 1);
    }
    let place = Place {
        file: spot.place.file,
        line: spot.place.line,
        column: spot.place.column + 1,
    };
    Spot {
        place,
        is_line_start: spot.is_line_start && (byte == b' ' || byte == b'\t'),
    }
}

/// Returns the position of the byte after these.
pub fn spot_after(spot: Spot, bytes: &[u8]) -> Spot
    requires line { spot.place.line + length bytes.now < 2 ^ 32 }
    requires column { spot.place.column + length bytes.now < 2 ^ 32 }
    ensures value { result ≡ spec.spot_after spot bytes.now }
    ensures within { IsWithin spot (length bytes.now) result }
{
    let mut at = spot;
    for byte in bytes {
        at = step(at, *byte);
    }
    at
}
