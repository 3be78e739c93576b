// The run of a solved plan: a deck releases it, and its slip goes from instant to instant until it is finished.
ghost use Rattle.std.specs.Prelude.{◌≡◌, ◌≤◌, OnOk};

use crate::refused;
use deck::Deck;
use deck::slip::{Returned, Slip};
use fleet::Fleet;
use search::Search;
use split::SplitRule;

// The name of the program's only deck.
const DECK: u16 = 0;

// A slip after the instants from it on were printed: it stands at the first that was not, if the printing failed, and else at its last.
struct Shown {
    slip: Slip,
    printed: anyhow::Result<()>,
}

// Releases the plan, prints the places of all sleds at each instant of its run, and hands the slip in whatever comes of that.
pub fn drive<F: Fleet, R: SplitRule>(
    rt: &HostRuntime,
    search: &Search<F, R>,
    sleds: usize,
) -> anyhow::Result<()> {
    let mut deck = Deck::new(DECK);
    let slip = deck.release(search).map_err(|fault| refused(rt, fault))?;
    let Shown { slip, printed } = show_run(rt, search, sleds, slip);
    let handed_in = match printed {
        Ok(()) => deck.finish(slip),
        Err(_) => deck.recall(slip),
    };
    let Ok(()) = handed_in else { unreachable() };
    printed
}

// Prints each instant of a run from its slip on.
fn show_run<F: Fleet, R: SplitRule>(
    rt: &HostRuntime,
    search: &Search<F, R>,
    sleds: usize,
    mut slip: Slip,
) -> Shown
    ensures name { result.slip.numbers.name ≡ slip.numbers.name }
    ensures run { result.slip.numbers.run ≡ slip.numbers.run }
    ensures end { OnOk result.printed (result.slip.numbers.last ≤ result.slip.numbers.instant) }
{
    loop {
        if let Err(error) = show_instant(rt, search, sleds, slip.numbers().instant) {
            let printed = Err(error);
            return Shown { slip, printed };
        }
        match slip.onward() {
            Ok(later) => slip = later,
            Err(Returned { slip, .. }) => {
                let printed = Ok(());
                return Shown { slip, printed };
            }
        }
    }
}

// Prints where each sled is at an instant.
fn show_instant<F: Fleet, R: SplitRule>(
    rt: &HostRuntime,
    search: &Search<F, R>,
    sleds: usize,
    instant: u8,
) -> anyhow::Result<()> {
    print!(rt; "at {instant}")?;
    for sled in 0..sleds {
        let place = search
            .place(sled, usize::from(instant))
            .map_err(|fault| refused(rt, fault))?;
        print!(rt; " {place}")?;
    }
    println!(rt; "")?;
    Ok(())
}
