// The parts of a link, by name.
ghost use Rattle.history_cli.specs.Names.{Names};

use std::error::Error;
use std::fmt;
use std::str::FromStr;

#[derive(Clone, Copy, Default, PartialEq, Eq, Debug)]
pub enum Parts {
    HeapStep,
    #[default]
    HeapJump,
    SortedStep,
    SortedJump,
}

// No parts have such a name.
#[derive(Clone, Copy, PartialEq, Eq, Debug)]
pub struct UnknownParts;

impl fmt::Display for UnknownParts {
    fn fmt<W: fmt::Write>(&self, f: &mut fmt::Formatter<W>) -> fmt::Result {
        write!(
            f,
            "no such parts: heap-step, heap-jump, sorted-step and sorted-jump can be chosen"
        )
    }
}

impl Error for UnknownParts {}

impl FromStr for Parts {
    type Err = UnknownParts;

    ghost from_str_gives = { Names };

    fn from_str(name: &str) -> Result<Parts, UnknownParts> {
        match name {
            "heap-step" => Ok(Parts::HeapStep),
            "heap-jump" => Ok(Parts::HeapJump),
            "sorted-step" => Ok(Parts::SortedStep),
            "sorted-jump" => Ok(Parts::SortedJump),
            _ => Err(UnknownParts),
        }
    }
}
