//! What holds of verdicts.
ghost use Rattle.std.specs.Prelude.{◌≡◌, ℕ, List, Result, true};
ghost use Rattle.dp_records.specs.declared.verdict.AuditError.{AuditError};
ghost use Rattle.dp_records.specs.declared.verdict.Verdict.{Verdict as Said};
ghost use Rattle.dp_records.specs.Behaviours.{Behaviour};
ghost use Rattle.dp_records.specs.Verdicts.{Judges, is_verdict};

/// Of bytes one thing alone is to be said, where no fault and no lack of memory keeps it from being said: they are an
/// honest record, or this line is the first that differs, or this line is the first that is bad.
pub fn one_verdict()
    ensures { (behaviour : Behaviour) (bytes : List ℕ) (one other : Result Said AuditError)
        → is_verdict one ≡ true → is_verdict other ≡ true
        → Judges behaviour bytes one → Judges behaviour bytes other → one ≡ other }
{}
