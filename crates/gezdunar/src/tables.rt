// A site's own widths across the boundary: every call with a grid is handed the entries as a pointer and a length, and
// an entry that is not there is 0.
ghost use Rattle.std.specs.Prelude.{◌≡◌};
ghost use Rattle.widths.specs.Loading.{loaded_of, load};
ghost use Rattle.gezdunar.specs.Boundary.{widths_out};

use crate::WidthsAnswer;
use refusals::Refusal;
use widths::Widths;

// The entries of a loaded table; zeros beside a refusal.
impl From<Result<Widths, Refusal>> for WidthsAnswer {
    ghost from_gives = { λ loaded answer. answer ≡ widths_out (loaded_of loaded) };

    fn from(loaded: Result<Widths, Refusal>) -> Self {
        match loaded {
            Ok(widths) => {
                let entries = widths.entries;
                WidthsAnswer { number: 0, entries }
            }
            Err(refusal) => WidthsAnswer {
                number: refusal.number(),
                entries: [0; 65],
            },
        }
    }
}

// Loads a table from its 68 bytes.
#[unsafe(no_mangle)]
pub extern "C" fn gezdunar_load_widths(bytes: &[u8]) -> WidthsAnswer
    ensures { result ≡ widths_out (load bytes.now) }
{
    WidthsAnswer::from(Widths::load(bytes))
}
