// Changes: their edits one after the other.
ghost use Rattle.std.specs.Prelude.{◌≡◌, None, OnOk};
ghost use Rattle.arti_model.specs.Edits.{edited_by};
ghost use Rattle.arti_catalog.specs.Built.{edits_refusal};
ghost use Rattle.arti_catalog.specs.Held.{Fits, Keeps, items_of, itself};
ghost use Rattle.arti_catalog.specs.Judged.{Judges};

use crate::edits::do_one;
use crate::judging::judge;
use crate::parts::Parts;
use arti_rows::{Edit, Limits, Moment, Refusal, Text};
use std::alloc::{AllocError, Global};

/// Does edits that aren't refused.
pub(crate) fn do_all(
    alloc: Global,
    limits: &Limits,
    parts: &mut Parts,
    moment: Moment,
    user: &Text,
    edits: &[Edit],
) -> Result<(), AllocError>
    requires fits { Fits parts.old.tree parts.old.rows }
    requires keeps { Keeps limits.now parts.old.tree }
    requires accepted { edits_refusal limits.now itself moment user.now edits.now (items_of parts.old.tree parts.old.rows) ≡ None }
    ensures fits { OnOk result (Fits parts.new.tree parts.new.rows) }
    ensures keeps { OnOk result (Keeps limits.now parts.new.tree) }
    ensures done { OnOk result (items_of parts.new.tree parts.new.rows ≡ edited_by itself moment user.now edits.now (items_of parts.old.tree parts.old.rows)) }
{
    for edit in edits {
        do_one(alloc, limits, parts, moment, user, edit)?;
    }
    Ok(())
}

/// Judges each edit on what those before it leave, and does it.
pub(crate) fn judge_and_do(
    alloc: Global,
    limits: &Limits,
    parts: &mut Parts,
    moment: Moment,
    user: &Text,
    edits: &[Edit],
) -> Result<(), Refusal>
    requires fits { Fits parts.old.tree parts.old.rows }
    requires keeps { Keeps limits.now parts.old.tree }
    ensures judged { Judges result (edits_refusal limits.now itself moment user.now edits.now (items_of parts.old.tree parts.old.rows)) }
    ensures fits { OnOk result (Fits parts.new.tree parts.new.rows) }
    ensures keeps { OnOk result (Keeps limits.now parts.new.tree) }
    ensures done { OnOk result (items_of parts.new.tree parts.new.rows ≡ edited_by itself moment user.now edits.now (items_of parts.old.tree parts.old.rows)) }
{
    for edit in edits {
        judge(alloc, limits, parts, edit)?;
        do_one(alloc, limits, parts, moment, user, edit)?;
    }
    Ok(())
}
