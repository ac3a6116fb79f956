// What the definitions of this crate promise: each function's contract is one law of them.
ghost use Rattle.std.specs.Prelude.{List, ℕ};
ghost use Rattle.mp_edge.specs.Told.{IsFront};
ghost use Rattle.mp_session.specs.Lines.{AnswersAlike};
ghost use Rattle.mp_session.specs.Transcript.{so_far, transcript};

/// What is written so far is the front of the transcript.
pub fn so_far_begins_the_transcript()
    ensures { (script : List ℕ) → IsFront (so_far script) (transcript script) }
{}

/// Read line by line a script has the transcript that its commands have.
pub fn transcript_line_by_line()
    ensures { (script : List ℕ) → AnswersAlike script }
{}
