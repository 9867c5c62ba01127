//! The bars of a worker.

ghost use Rattle.std.specs.Prelude.{◌≡◌, ◌≤◌, ◌<◌, ◌+◌, ◌-◌, ◌*◌, ◌^◌, codes, length};
ghost use Rattle.text_out.specs.Out.{Writes};
ghost use Rattle.exchange_counts.specs.CountedExchanges.{exchange_at};
ghost use Rattle.superstep_machine.specs.Trace.{relation_of};
ghost use Rattle.svg_texts.specs.declared.form.Form.TheVariants as form;
ghost use Rattle.svg_texts.specs.Shapes.{Drawn, shape_text, words_text};
ghost use Rattle.tracer.specs.Picture as spec;

use exchange_counts::Counts;
use svg_texts::{
    Anchor, Colour, Face, Fill, Form, Paint, Stroke, Weight, close_titled, open_titled,
    write_filled, write_form, write_number, write_numbered, write_title_end,
};
use text_out::{Out, WriteFault};

/// Where the axis stands.
pub(crate) const AXIS: u128 = 214;

const TALLEST: u128 = 100;

/// How a column is drawn: where it begins, in pixels, and for how many words the tallest bar is.
#[derive(Clone, Copy, Debug)]
pub(crate) struct Scale {
    pub(crate) x: u128,
    pub(crate) most: u64,
    ghost near: { x < 2 ^ 100 },
}

/// How tall the bar of so many words is.
pub(crate) fn bar_height(most: u64, words: u64) -> u128
    requires { words ≤ most }
    ensures height { result ≡ spec.bar_height most words }
    ensures low { result ≤ 100 }
{
    if most == 0 {
        0
    } else {
        (u128::from(words) * TALLEST + (u128::from(most) - 1)) / u128::from(most)
    }
}

// Where a worker's bars begin.
fn bar_left(x: u128, worker: usize) -> u128
    requires { x < 2 ^ 100 }
    ensures left { result ≡ spec.bar_left x worker }
    ensures near { result < 2 ^ 101 }
{
    x + 4 + 14 * worker as u128
}

// What a worker sent, or received, for the text of its bar.
#[derive(Clone, Copy, Debug)]
struct Share {
    worker: usize,
    words: u64,
}

fn write_share<W: Out>(out: &mut W, did: &[u8], share: Share) -> Result<(), WriteFault>
    ensures written { Writes (W.Out.state out.old) (W.Out.state out.new)
        (words_text (spec.share_words share.worker did.now share.words)) result }
{
    write_numbered(out, b"worker ", share.worker as u128)?;
    write_numbered(out, did, share.words as u128)
}

/// Writes a form as words that were sent are painted.
pub(crate) fn write_as_sent<W: Out>(out: &mut W, form: &Form) -> Result<(), WriteFault>
    ensures written { Writes (W.Out.state out.old) (W.Out.state out.new) (shape_text (Drawn form.now spec.sent_paint)) result }
{
    write_filled(out, form, Colour::Blue)
}

/// Writes a form as words that were received are painted.
pub(crate) fn write_as_received<W: Out>(out: &mut W, form: &Form) -> Result<(), WriteFault>
    ensures written { Writes (W.Out.state out.old) (W.Out.state out.new) (shape_text (Drawn form.now spec.received_paint)) result }
{
    let paint = Paint {
        fill: Fill::Striped,
        stroke: Some(Stroke {
            colour: Colour::Brown,
            weight: Weight::Thin,
            dashed: false,
        }),
    };
    write_form(out, form, &paint)
}

// The bar of so many pixels at a height.
fn bar_at(x: u128, y: u128, height: u128) -> Form
    ensures { result ≡ form.Rectangle x y 12 height }
{
    Form::Rectangle {
        left: x,
        top: y,
        wide: 12,
        tall: height,
    }
}

fn write_sent_at<W: Out>(out: &mut W, x: u128, height: u128, share: Share) -> Result<(), WriteFault>
    requires low { height ≤ 100 }
    ensures written { Writes (W.Out.state out.old) (W.Out.state out.new)
        (shape_text (spec.bar x (214 - height) height spec.sent_paint (spec.share_words share.worker (codes " sent ") share.words)))
        result }
{
    open_titled(out)?;
    write_share(out, b" sent ", share)?;
    write_title_end(out)?;
    write_as_sent(out, &bar_at(x, AXIS - height, height))?;
    close_titled(out)
}

fn write_received_at<W: Out>(
    out: &mut W,
    x: u128,
    height: u128,
    share: Share,
) -> Result<(), WriteFault>
    ensures written { Writes (W.Out.state out.old) (W.Out.state out.new)
        (shape_text (spec.bar x 214 height spec.received_paint (spec.share_words share.worker (codes " received ") share.words))) result }
{
    open_titled(out)?;
    write_share(out, b" received ", share)?;
    write_title_end(out)?;
    write_as_received(out, &bar_at(x, AXIS, height))?;
    close_titled(out)
}

fn write_sent_bar<W: Out>(out: &mut W, scale: Scale, share: Share) -> Result<(), WriteFault>
    requires words { share.words ≤ scale.most }
    ensures written { Writes (W.Out.state out.old) (W.Out.state out.new)
        (shape_text (spec.sent_bar scale.most scale.x share.worker share.words)) result }
{
    let height = bar_height(scale.most, share.words);
    write_sent_at(out, bar_left(scale.x, share.worker), height, share)
}

fn write_received_bar<W: Out>(out: &mut W, scale: Scale, share: Share) -> Result<(), WriteFault>
    requires words { share.words ≤ scale.most }
    ensures written { Writes (W.Out.state out.old) (W.Out.state out.new)
        (shape_text (spec.received_bar scale.most scale.x share.worker share.words)) result }
{
    let height = bar_height(scale.most, share.words);
    write_received_at(out, bar_left(scale.x, share.worker), height, share)
}

/// Writes the bars of what each worker sent in an exchange, from 1.
pub(crate) fn write_sent_bars<W: Out>(
    out: &mut W,
    counts: &Counts,
    scale: Scale,
    k: usize,
) -> Result<(), WriteFault>
    requires first { 1 ≤ k }
    requires last { k ≤ length counts.now }
    requires most { relation_of (exchange_at counts.now k) ≤ scale.most }
    ensures written { Writes (W.Out.state out.old) (W.Out.state out.new)
        (shape_text (spec.sent_bars scale.most scale.x 0 (exchange_at counts.now k).sent)) result }
{
    let workers = counts.workers();
    'workers: for w in 0..workers {
        let share = Share {
            worker: w,
            words: counts.sent(k, w),
        };
        write_sent_bar(out, scale, share)?;
    }
    Ok(())
}

/// Writes the bars of what each worker received in it.
pub(crate) fn write_received_bars<W: Out>(
    out: &mut W,
    counts: &Counts,
    scale: Scale,
    k: usize,
) -> Result<(), WriteFault>
    requires first { 1 ≤ k }
    requires last { k ≤ length counts.now }
    requires most { relation_of (exchange_at counts.now k) ≤ scale.most }
    ensures written { Writes (W.Out.state out.old) (W.Out.state out.new)
        (shape_text (spec.received_bars scale.most scale.x 0 (exchange_at counts.now k).received)) result }
{
    let workers = counts.workers();
    'workers: for w in 0..workers {
        let share = Share {
            worker: w,
            words: counts.received(k, w),
        };
        write_received_bar(out, scale, share)?;
    }
    Ok(())
}

// A worker's number below its bars.
fn write_worker_number<W: Out>(out: &mut W, x: u128, worker: usize) -> Result<(), WriteFault>
    requires near { x < 2 ^ 100 }
    ensures written { Writes (W.Out.state out.old) (W.Out.state out.new) (shape_text (spec.worker_number x worker)) result }
{
    write_number(
        out,
        bar_left(x, worker) + 6,
        327,
        Anchor::Middle,
        Face::Small,
        worker as u128,
    )
}

/// Writes the numbers of so many workers below their bars.
pub(crate) fn write_worker_numbers<W: Out>(
    out: &mut W,
    x: u128,
    workers: usize,
) -> Result<(), WriteFault>
    requires near { x < 2 ^ 100 }
    ensures written { Writes (W.Out.state out.old) (W.Out.state out.new) (shape_text (spec.worker_numbers x 0 workers)) result }
{
    'workers: for w in 0..workers {
        write_worker_number(out, x, w)?;
    }
    Ok(())
}
