// What follows from the meaning of files alone.
ghost use Rattle.std.specs.Prelude.{◌≡◌, ℕ};
ghost use Rattle.arti_rows.specs.declared.limits.Limits.{Limits};
ghost use Rattle.arti_ground.specs.State.{Bytes};
ghost use Rattle.arti_model.specs.Apply.{Holding};
ghost use Rattle.arti_store.specs.Store.{Stands};

use arti_codec::bytes_are_of_one_change;
use arti_journal::one_list_of_bodies;

/// Files stand for one store at most.
pub fn files_stand_for_one_store()
    ensures { (limits : Limits) (files : Bytes) (h k : Holding) (m n : ℕ) → Stands limits files h m → Stands limits files k n → (h ≡ k) × (m ≡ n) }
{
    one_list_of_bodies();
    bytes_are_of_one_change();
}
