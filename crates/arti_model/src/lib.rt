//! What the program's promises speak of: definitions on lists of bytes, and laws about them.
#![tactic(auto)]

mod asks;

ghost use Rattle.std.specs.Prelude.{◌≡◌, ℕ, ℤ, List};
ghost use Rattle.arti_rows.specs.declared.edits.Edit.{Edit};
ghost use Rattle.arti_rows.specs.declared.limits.Limits.{Limits};
ghost use Rattle.arti_rows.specs.declared.rows.FileRef.{FileRef};
ghost use Rattle.arti_model.specs.Decide.{Decision};
ghost use Rattle.arti_model.specs.DecideItems.{Looks, decide_items};
ghost use Rattle.arti_model.specs.ItemLaws.{IsAccepted};
ghost use Rattle.arti_model.specs.declared.asks.AskRow.{AskRow};
ghost use Rattle.arti_model.specs.Requests.{Start, Begins, Whole, Ending, RequestBytes};
ghost use Rattle.arti_model.specs.Apply.{edited, edit_refusal};
ghost use Rattle.arti_model.specs.Mapped.{items_mapped};
ghost use Rattle.arti_model.specs.Stock.{Stock};
ghost use Rattle.arti_model.specs.Store.{Item, InDefaultOrder, put_item};
ghost use Rattle.arti_model.specs.Run.{AnswersAll, run_bytes};

pub use asks::{Ask, AskRow, Route};

/// Why the bytes of a stream are no request.
#[derive(Clone, Copy, Debug, PartialEq, Eq)]
pub enum Why {
    /// The bytes begin with no request head, or too many line ends stand before it.
    BadHead,
    /// The head has too many bytes or lines.
    HeadTooLarge,
    /// `Content-Length` isn't one number, or `Transfer-Encoding` stands beside it.
    BadLength,
    /// The body has a transfer coding.
    UnknownCoding,
    /// The body is longer than one content may be.
    BodyTooLarge,
}

/// Bytes begin with one thing.
pub fn bytes_begin_with_one_thing()
    ensures { (content : ℕ) (bytes : List ℕ) (s t : Start) → Begins content bytes s → Begins content bytes t → s ≡ t }
{}

/// Bytes are requests, and end, in one way.
pub fn bytes_are_read_in_one_way()
    ensures { (content most : ℕ) (bytes : List ℕ) (qs rs : List Whole) (e f : Ending)
        → RequestBytes content most bytes qs e → RequestBytes content most bytes rs f → (qs ≡ rs) × (e ≡ f) }
{}

/// The bytes of a run are determined, where no request found too little memory.
pub fn steps_answer_all()
    ensures { (limits : Limits) (moments : List ℤ) (s : Stock) (qs : List Whole) (ending : Ending)
        → AnswersAll limits moments s qs ending (run_bytes limits moments s qs ending) }
{}

/// Items that stand in the default order do so when one is put among them.
pub fn items_keep_their_order<F>()
    ensures { (new : Item F) (items : List (Item F)) → InDefaultOrder items → InDefaultOrder (put_item new items) }
{}

/// An edit does the same whatever the contents are seen as, and is refused alike.
pub fn edits_look_at_no_content<F, G>()
    ensures done { (f : F → G) (file_of : FileRef → F) (moment : ℤ) (user : List ℕ) (edit : Edit) (items : List (Item F))
        → items_mapped f (edited file_of moment user edit items) ≡ edited (λ ref. f (file_of ref)) moment user edit (items_mapped f items) }
    ensures judged { (f : F → G) (limits : Limits) (edit : Edit) (items : List (Item F)) → edit_refusal limits edit (items_mapped f items) ≡ edit_refusal limits edit items }
{}

/// A change that a request for items makes is refused by nothing, whatever is decided of all other requests.
pub fn item_changes_are_accepted<F>()
    ensures { (looks : Looks F) (limits : Limits) (items : List (Item F)) (moment : ℤ) (user : List ℕ) (sent : F) (ask : AskRow) (other : Decision F)
        → IsAccepted limits items other → IsAccepted limits items (decide_items looks limits items moment user sent ask other) }
{}
