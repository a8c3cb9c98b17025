ghost use Rattle.std.specs.Prelude.{◌≡◌, [], ◌∷◌, MatchOption};
ghost use Rattle.std.specs.Iterator.{YieldsFirstRef, item_count};
ghost use Rattle.recording.specs.Pieces.{pieces_of, fields_of, lines_of, pieces_left, fields_left};

// The first piece, and what stands after its separator. None where there is no byte.
fn cut(bytes: &[u8], separator: u8) -> Option<(&[u8], &[u8])>
    ensures { MatchOption result (pieces_of separator bytes.now ≡ []) (λ x. pieces_of separator bytes.now ≡ x.0.now ∷ pieces_of separator x.1.now) }
{
    if bytes.is_empty() {
        return None;
    }
    match bytes.iter().position(|b| *b == separator) {
        Some(end) => Some((&bytes[..end], &bytes[end + 1..])),
        None => Some((bytes, &[])),
    }
}

// The pieces of bytes that each separator ends. What follows the last one is a piece too, unless it is empty.
#[derive(Drop)]
pub(crate) struct Pieces<'a> {
    rest: &'a [u8],
    separator: u8,
}

impl<'a> Iterator for Pieces<'a> {
    type Item = &'a [u8];

    ghost next_gives = { YieldsFirstRef pieces_left };

    ghost remaining = { item_count pieces_left };

    fn next(&mut self) -> Option<&'a [u8]> {
        let (piece, rest) = cut(self.rest, self.separator)?;
        self.rest = rest;
        Some(piece)
    }
}

// The lines of a text, each without the byte 0A that ends it.
pub(crate) fn lines(text: &[u8]) -> Pieces<'_>
    ensures { pieces_left result ≡ lines_of text.now }
{
    Pieces {
        rest: text,
        separator: b'\n',
    }
}

// The fields of a line: the longest rows of bytes other than the space.
#[derive(Drop)]
pub(crate) struct Fields<'a> {
    pieces: Pieces<'a>,
}

impl<'a> Fields<'a> {
    pub(crate) fn new(line: &'a [u8]) -> Fields<'a>
        ensures { fields_left result ≡ fields_of line.now }
    {
        Fields {
            pieces: Pieces {
                rest: line,
                separator: b' ',
            },
        }
    }
}

impl<'a> Iterator for Fields<'a> {
    type Item = &'a [u8];

    ghost next_gives = { YieldsFirstRef fields_left };

    ghost remaining = { item_count fields_left };

    fn next(&mut self) -> Option<&'a [u8]> {
        self.pieces.find(|piece| !piece.is_empty())
    }
}
