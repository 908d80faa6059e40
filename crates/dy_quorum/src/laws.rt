ghost use Rattle.std.specs.Prelude.{ℕ, List};
ghost use Rattle.dy_core.specs.Logs.{Answer};
ghost use Rattle.dy_shares.specs.Shares.{ReceiptParts};
ghost use Rattle.dy_quorum.specs.{
  Tallies.{CanChoose, DoAgree, IsChoiceOfHomes},
  Gatherings.{AreFirstAnswers, first_answers},
};

/// Of receipts of which any two agree, w of distinct homes are of distinct holders too.
pub fn distinct_homes_are_enough()
    ensures { (w : ℕ) (rs c : List ReceiptParts)
        → DoAgree rs → IsChoiceOfHomes w rs c → CanChoose w rs }
{}

/// The first answers are some of the answers: of each home that answered the first, and no other.
pub fn first_answers_are_one_a_home()
    ensures { (answers : List Answer) → AreFirstAnswers answers (first_answers answers) }
{}
