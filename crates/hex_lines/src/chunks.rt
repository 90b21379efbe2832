// The characters of a line, from a chunk of the input.
ghost use Rattle.std.specs.Prelude.{option_map};
ghost use Rattle.hex_lines.specs.Reading.{Gathers};

use crate::Line;
use crate::writing::LINE_END;

/// Feeds the characters of a chunk to a line, up to its line end: what stands behind that, or none if no line end came.
#[tactic(auto, using(crate::proofs::Gathering::one_more, crate::proofs::Gathering::line_ended))]
pub fn gather<'a>(line: &mut Line, bytes: &mut [u8], chunk: &'a [u8]) -> Option<&'a [u8]>
    ensures { Gathers chunk.now line.old bytes.old line.new bytes.new (option_map (λ rest. rest.now) result) }
{
    for (i, c) in chunk.iter().enumerate() {
        if *c == LINE_END {
            return Some(&chunk[i + 1..]);
        }
        *line = line.feed(bytes, *c);
    }
    None
}
