//! The laws of the picture.

ghost use Rattle.std.specs.Prelude.{ℕ, List, ◌≤◌, ◌<◌, length, slice_index_or};
ghost use Rattle.superstep_machine.specs.Trace.{Exchange};
ghost use Rattle.exchange_counts.specs.CountedExchanges.{exchange_at};
ghost use Rattle.svg_texts.specs.Shapes.{IsIn};
ghost use Rattle.tracer.specs.Picture.{column, column_left, drawn, most_words, picture, received_bar, sent_bar, worker_number, workers_of};
ghost use Rattle.tracer.specs.Traced.{line_of};

/// Each exchange that is drawn has its column, with the line that is given for it.
pub fn each_exchange_is_a_column()
    // Each of the first 200 exchanges has its column, with its number, what it was for, its h, and the line that is
    // given for it.
    ensures { (lines outcome : List ℕ) (es : List Exchange) (k : ℕ) → 1 ≤ k → k ≤ length (drawn es) →
        IsIn (column (workers_of es) (most_words (drawn es)) k (line_of lines k) (exchange_at es k)) (picture lines outcome es).shape }
{}

/// In the column of an exchange each worker has a bar for the words that it sent there, one for those that it received, and below them its
/// number.
pub fn each_worker_has_its_bars()
    // In an exchange's column each worker has a bar for the words that it sent, as tall as they are to the most of all
    // drawn, with its number.
    ensures sent { (lines outcome : List ℕ) (es : List Exchange) (k w : ℕ) → 1 ≤ k → k ≤ length (drawn es) →
        w < length (exchange_at es k).sent →
        IsIn (sent_bar (most_words (drawn es)) (column_left (workers_of es) k) w (slice_index_or (exchange_at es k).sent w 0))
        (picture lines outcome es).shape }
    // In an exchange's column each worker has a bar for the words that it received, as tall as they are to the most of
    // all drawn, with its number.
    ensures received { (lines outcome : List ℕ) (es : List Exchange) (k w : ℕ) → 1 ≤ k → k ≤ length (drawn es) →
        w < length (exchange_at es k).received →
        IsIn (received_bar (most_words (drawn es)) (column_left (workers_of es) k) w (slice_index_or (exchange_at es k).received w 0))
        (picture lines outcome es).shape }
    // Below each worker's bars stands its number.
    ensures number { (lines outcome : List ℕ) (es : List Exchange) (k w : ℕ) → 1 ≤ k → k ≤ length (drawn es) →
        w < length (exchange_at es k).sent →
        IsIn (worker_number (column_left (workers_of es) k) w) (picture lines outcome es).shape }
{}
