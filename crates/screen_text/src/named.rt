ghost use Rattle.std.specs.Prelude.{min};
ghost use Rattle.screen_text.specs.Named.{named_output};

use kinds::UnknownNumber;
use std::fmt;

// The kind that a number of the tables names, shown by its name. A number that names none is shown as a question mark.
#[derive(Drop)]
pub struct Named<K>(Result<K, UnknownNumber>);

impl<K: TryFrom<u8, Error = UnknownNumber>> Named<K> {
    // No kind has the number 255, so it stands for each larger one too.
    pub fn of(number: u64) -> Named<K>
        ensures { K.try_from_gives (min number 255) result.0 }
    {
        Named(K::try_from(u8::try_from(number).unwrap_or(u8::MAX)))
    }
}

impl<K: fmt::Display> fmt::Display for Named<K> {
    ghost output = { λ x. named_output K.output x.0 };

    fn fmt<W: fmt::Write>(&self, f: &mut fmt::Formatter<W>) -> fmt::Result {
        match &self.0 {
            Ok(kind) => write!(f, "{kind}"),
            Err(_) => write!(f, "?"),
        }
    }
}
