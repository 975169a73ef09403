//! Of several faults of a chunk, the first by its number.
ghost use Rattle.std.specs.Prelude.{◌≡◌, option_map};
ghost use Rattle.av_types.specs.Faults.{fault_number, lesser};

use av_types::Fault;

/// The one of two faults that comes first, or the fault where there was none before.
pub(crate) fn lesser(refused: Option<Fault>, fault: Fault) -> Fault
    ensures { fault_number result ≡ lesser (fault_number fault) (option_map fault_number refused) }
{
    match refused {
        None => fault,
        Some(earlier) => {
            if earlier.number() < fault.number() {
                earlier
            } else {
                fault
            }
        }
    }
}
