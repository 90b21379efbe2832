// The records of a call as lines: its output, the bytes of its records one behind the other, cut into records and written
// as lines of hexadecimal digits.
#![tactic(auto)]

ghost use Rattle.std.specs.Prelude.{◌+◌, ◌*◌, ◌≤◌, ◌<◌, min, ◌≡◌, length, drop};
ghost use Rattle.lists.specs.Writes.{Wrote};
ghost use Rattle.record_lines.specs.Split.{behind_tag, lines_of_records};
ghost use Rattle.record_lines.specs.Ends.{Ends};

// The tag of a record's first field, its kind.
const KIND: u8 = 0x01;

// The place behind the field that bytes begin with, or their end if it is cut short there.
#[tactic(auto, using(crate::proofs::Cuts::value_there))]
fn field_end(bytes: &[u8]) -> usize
    requires { 0 < length bytes.now }
    ensures { result ≡ min (1 + behind_tag (drop 1 bytes.now)) (length bytes.now) }
{
    match bytes {
        [_, high, low, ..] => bytes.len().min(3 + 256 * *high as usize + *low as usize),
        _ => bytes.len(),
    }
}

/// The place behind the record that bytes begin with.
#[tactic(auto, using(crate::proofs::Cuts::first_field, crate::proofs::Cuts::next_field, crate::proofs::Cuts::next_record, crate::proofs::Cuts::last_record))]
pub fn record_end(records: &[u8]) -> usize
    requires { 0 < length records.now }
    ensures { Ends records.now result }
{
    let mut end = field_end(records);
    // Each turn goes on by a field's length.
    while end < records.len() && records[end] != KIND {
        end += field_end(&records[end..]);
    }
    end
}

/// Writes records as a line for each, and gives the place behind them.
#[tactic(auto, using(crate::proofs::Lines::none_yet, crate::proofs::Lines::one_more))]
pub fn put_records(text: &mut [u8], at: usize, records: &[u8]) -> usize
    requires { at + 3 * length records.now ≤ length text.old }
    ensures wrote { Wrote text.old at (lines_of_records records.now) text.new result }
    ensures upper_bound { result ≤ at + 3 * length records.now }
{
    let mut rest = records;
    let mut p = at;
    // Each turn takes a record, so what is left shrinks by its length.
    while !rest.is_empty() {
        let (record, behind) = rest.split_at(record_end(rest));
        p = hex_lines::put_line(text, p, record);
        rest = behind;
    }
    p
}
