//! The laws of this crate.

ghost use Rattle.std.specs.Prelude.{◌≡◌, ◌∷◌, ◌++◌, [], codes};
ghost use Rattle.superstep_machine.specs.Run.{Sends, Replies, Votes, Closes};
ghost use Rattle.tracer.specs.Cost.{cost_text};
ghost use Rattle.tracer.specs.Traced.{trace_text};

/// The trace of a worked run, of which the lines of three exchanges are known.
pub fn worked_trace()
    ensures { trace_text (12 ∷ 12 ∷ 4294967295 ∷ []) (record { purpose = Sends; sent = 2 ∷ 2 ∷ []; received = 3 ∷ 1 ∷ [] }
        ∷ record { purpose = Replies; sent = 2 ∷ 1 ∷ []; received = 1 ∷ 2 ∷ [] }
        ∷ record { purpose = Votes 7; sent = 0 ∷ 0 ∷ []; received = 0 ∷ 0 ∷ [] }
        ∷ record { purpose = Closes; sent = 0 ∷ 10 ∷ []; received = 0 ∷ 10 ∷ [] } ∷ [])
        ≡ codes "1 send sent 2 2 received 3 1 h 3 line 12\n2 reply sent 2 1 received 1 2 h 2 line 12\n" ++
        codes "3 vote sent 0 0 received 0 0 h 0 line 4294967295\n4 close sent 0 10 received 0 10 h 10\n" }
{}

/// What two exchanges of 3 and 10 words cost at 4 a word and 100 an exchange.
pub fn worked_cost()
    ensures { cost_text 4 100 (record { purpose = Sends; sent = 2 ∷ 2 ∷ []; received = 3 ∷ 1 ∷ [] }
        ∷ record { purpose = Closes; sent = 0 ∷ 10 ∷ []; received = 0 ∷ 10 ∷ [] } ∷ [])
        ≡ codes "cost 252\n" }
{}
