// Names made in a group, and tags.
ghost use Rattle.std.specs.Prelude.{◌≡◌};
ghost use Rattle.laws.specs.Naming.{name_tries, tag_tries, MadeNamesAreNew, TagsAreFree};

// How many tries are enough for a name, by the names seen in its group. The made name is the first in the order of tries that is not
// seen.
pub fn name_tries(seen: u32) -> u64
    ensures tries { result ≡ name_tries seen }
    ensures new { MadeNamesAreNew }
{
    seen as u64 + 1
}

// How many tries are enough for a tag, by the identifiers and rows that may bear it. The tag is the first above the mark that nothing
// bears.
pub fn tag_tries(identifiers: u32, rows: u32) -> u64
    ensures tries { result ≡ tag_tries identifiers rows }
    ensures free { TagsAreFree }
{
    identifiers as u64 + rows as u64 + 1
}
