// What comes of a change that was judged.
ghost use Rattle.std.specs.Prelude.{◌≡◌};
ghost use Rattle.arti_moves.specs.Moves.{is_full, is_barred, sooner, settled};

use arti_rows::{Change, Refusal};

/// The change, unless it was refused.
pub(crate) fn settle(
    checked: Result<(), Refusal>,
    change: Change,
) -> Result<Option<Change>, Refusal>
    ensures { result ≡ settled checked change }
{
    match checked {
        Ok(()) => Ok(Some(change)),
        Err(why) => Err(why),
    }
}

/// Of two judgements the first that refuses, where limits are judged behind `judged`, and all else of `checked` before it.
pub(crate) fn sooner(
    judged: Result<(), Refusal>,
    checked: Result<(), Refusal>,
) -> Result<(), Refusal>
    ensures { result ≡ sooner judged checked }
{
    if judged.is_ok() || is_barred(&checked) {
        return checked;
    }
    judged
}

// Whether something else than a limit refuses.
fn is_barred(checked: &Result<(), Refusal>) -> bool
    ensures { result ≡ is_barred checked.now }
{
    match checked {
        Ok(()) => false,
        Err(why) => !is_full(why),
    }
}

// Whether a limit would be passed.
fn is_full(why: &Refusal) -> bool
    ensures { result ≡ is_full why.now }
{
    matches!(why, Refusal::Full(_))
}
