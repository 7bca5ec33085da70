//! Laws of the acknowledgement word. The function does nothing, and its contract is the law.

ghost use Rattle.std.specs.Prelude.{◌≡◌, ◌≢◌};
ghost use Rattle.pte.specs.declared.address.What.{What};
ghost use Rattle.shoot.specs.Acknowledgement.{IsAskable, acknowledgement};

/// Words that are equal ask for the same, so for the same service; and no word is 0.
#[tactic(auto, using(crate::proofs::AcknowledgementWords::same_what, crate::proofs::AcknowledgementWords::not_zero))]
pub fn equal_words_ask_for_the_same()
    ensures same { (a b : What) → IsAskable a → IsAskable b → acknowledgement a ≡ acknowledgement b
        → a ≡ b }
    ensures not_zero { (a : What) → acknowledgement a ≢ 0 }
{}
