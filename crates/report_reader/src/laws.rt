//! Theorems on the encoding of answers.
ghost use Rattle.std.specs.Prelude.{◌≡◌, ◌<◌, ◌⊎◌, ℕ, List, true};
ghost use Rattle.exchange_events.specs.declared.answer.Answer.{Answer};
ghost use Rattle.report_reader.specs.Spelling.{is_unbroken, IsFaultyAt, IsReport, Spells};

/// A line encodes at most one answer.
pub fn one_spelling()
    ensures { (line : List ℕ) (a b : Answer) → Spells line a → Spells line b → a ≡ b }
{}

/// A line that encodes an answer has no line feed.
pub fn no_line_feed()
    ensures { (line : List ℕ) (answer : Answer) → Spells line answer → is_unbroken line ≡ true }
{}

/// Bytes have one reading: they are the report of one list of answers, or one line is the first wrong one.
pub fn one_report_reading()
    ensures one_report { (bytes : List ℕ) (xs ys : List Answer) → IsReport bytes xs → IsReport bytes ys → xs ≡ ys }
    ensures never_both { (bytes : List ℕ) (answers : List Answer) (n : ℕ) → IsReport bytes answers → IsFaultyAt bytes n → ⊥ }
    ensures one_fault { (bytes : List ℕ) (m n : ℕ) → IsFaultyAt bytes m → IsFaultyAt bytes n → m ≡ n }
{}

/// Bytes have a reading: they are a report, or a line is the first wrong one.
pub fn some_report_reading()
    ensures { (bytes : List ℕ) →
        ((answers : List Answer) × IsReport bytes answers) ⊎ ((n : ℕ) × IsFaultyAt bytes n) }
{}
