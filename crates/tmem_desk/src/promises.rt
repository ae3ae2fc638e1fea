// What follows from how requests are served.
ghost use Rattle.std.specs.Prelude.{◌≡◌, ◌+◌, ℕ, ℤ, List, [], Option, All, count_by};
ghost use Rattle.std.specs.Io.KnownBytes.{Appends};
ghost use Rattle.tmem_effect.specs.Prefix.{IsPrefix};
ghost use Rattle.tmem_fault.specs.declared.fault.Fault.{Fault};
ghost use Rattle.tmem_lines.specs.Views.{LinesView};
ghost use Rattle.tmem_spine.specs.History.{count};
ghost use Rattle.tmem_requests.specs.declared.request.RequestBody.{RequestBody};
ghost use Rattle.tmem_desk.specs.Asking.{Store};
ghost use Rattle.tmem_desk.specs.Desks.{DeskView};
ghost use Rattle.tmem_desk.specs.Due.{LosesNone, answers_to, due, one_for};
ghost use Rattle.tmem_desk.specs.Durable.{TellsAmong};
ghost use Rattle.tmem_desk.specs.Failing.{PrintsBeginning, TellsBehind};
ghost use Rattle.tmem_desk.specs.Steps.{LabelledSteps};
ghost use Rattle.tmem_desk.specs.Serving.{Takes, TakesText, RefusesLine, RefusesLong, Round, RunsEnd, RunsPiece, TriesNext, Finishes, ServesPiece, ServesEnd, with_closed};

/// No answer is lost, and none is given twice: a request that is taken waits or is answered once, and so does one that is tried again.
/// No other request is touched, but that one that waits may be answered that it was cancelled. A line that is no request answers none.
/// At the end of the input each that is due is answered once, and none waits any more.
pub fn each_is_answered_once()
    ensures taken { (s : Store) (id : ℤ) (ask : RequestBody) (v w : DeskView) (other : ℤ) → Takes s id ask v w → due other w ≡ due other v + one_for other id }
    ensures tried { (s : Store) (v w : DeskView) (other : ℤ) → Round s v w → due other w ≡ due other v }
    ensures long { (v w : DeskView) (other : ℤ) → RefusesLong v w → due other w ≡ due other v }
    ensures refused { (s : Store) (text : List ℕ) (v w : DeskView) (other : ℤ) → RefusesLine s text v w → due other w ≡ due other v }
    ensures lines { (s : Store) (texts : List (List ℕ)) (v w : DeskView) → LabelledSteps (TakesText s) texts v w → LosesNone s texts v w }
    ensures finished { (s : Store) (v w : DeskView) (other : ℤ) → Finishes s v w → due other w ≡ due other v }
    ensures end { (s : Store) (text : List ℕ) (v w : DeskView) (other : ℤ) (before after : Option (List ℕ)) (served : ServesEnd s text v w (Appends before after))
        → (count_by (answers_to other) (with_closed served.ran).told ≡ due other served.runs.taken) × (w.waiting ≡ []) }
{}

/// Nothing that a client was told is lost: each transaction that an answer names, and each that it was made on, is among those that the
/// pass saw durable before it was printed, also where the output takes the beginning alone (`ran`), and where serving ends early
/// (`stopped`, `stopped_output`). For an answer that names none, as that a transaction retries, aborts or is refused, it is told of what the
/// pass knew when it was made: that stays known from line to line and from turn to turn, and is durable once all is finished.
pub fn nothing_told_is_lost()
    ensures pieces { (s : Store) (text : List ℕ) (held : LinesView) (v w : DeskView) (before after : Option (List ℕ)) (served : ServesPiece s text held v w (Appends before after))
        → v.told ≡ [] → All (TellsAmong (count s.start w.pass.seen)) served.ran.told }
    ensures end { (s : Store) (text : List ℕ) (v w : DeskView) (before after : Option (List ℕ)) (served : ServesEnd s text v w (Appends before after))
        → v.told ≡ [] → All (TellsAmong (count s.start w.pass.seen)) (with_closed served.ran).told }
    ensures ran { (s : Store) (text : List ℕ) (held : LinesView) (v ran : DeskView) → RunsPiece s text held v ran → v.told ≡ [] → All (TellsAmong (count s.start ran.pass.seen)) ran.told }
    ensures ran_end { (s : Store) (text : List ℕ) (v ran : DeskView) → RunsEnd s text v ran → v.told ≡ [] → All (TellsAmong (count s.start ran.pass.seen)) ran.told }
    ensures stopped { (s : Store) (texts : List (List ℕ)) (mid w : DeskView) (fault : Fault) (before after : Option (List ℕ)) (told : TellsBehind s texts mid fault w (Appends before after)) → All (TellsAmong (count s.start w.pass.seen)) told.all }
    ensures stopped_output { (s : Store) (texts : List (List ℕ)) (mid w : DeskView) (fault : Fault) (before after : Option (List ℕ)) (told : TellsBehind s texts mid fault w (PrintsBeginning (Appends before after))) → All (TellsAmong (count s.start w.pass.seen)) told.all }
    ensures lines { (s : Store) (text : List ℕ) (v w : DeskView) → TakesText s text v w → IsPrefix v.pass.known w.pass.known }
    ensures turns { (s : Store) (v w : DeskView) → TriesNext s v w → IsPrefix v.pass.known w.pass.known }
    ensures finished { (s : Store) (v w : DeskView) → Finishes s v w → IsPrefix v.pass.known w.pass.seen }
{}
