// One message that was read, redacted: from its tables to its text and its report.
ghost use Rattle.std.specs.Prelude.{Ok};
ghost use Rattle.text.specs.Text.{Text};
ghost use Rattle.message_model.specs.Message.{Message};
ghost use Rattle.policy.specs.Policy.{as_policy, PolicyHeld};
ghost use Rattle.run_model.specs.Redact as R;
ghost use Rattle.run_model.specs.Redact.{redact_from};
ghost use Rattle.redact_1_run.specs.Ran.{Loaded, AnyLoaded, Printable, Ran, RedactedIs};

use super::run::{Run, run_turns};
use er7_message::message::Layout;
use er7_render::render::render;
use er7_table::table::{Leaf, SEGMENT_ROWS, Segment};
use policy::policy::Policy;
use redact_5_act::known::UNKNOWN;
use redact_5_act::state::{Counters, Setting};
use refusal::Refusal;
use refusal::limits::{LEARNT_MAX, LEAVES_MAX};
use text::bytes::copy_at;

// The lengths of the text and of the report, and how many rows it has.
#[derive(Clone, Copy)]
pub struct Redacted {
    pub text_len: usize,
    pub report_len: usize,
    pub rows: usize,
}

// Writes the text of len bytes that the tables print as to the front of output, if it has room for it.
fn print_text(
    layout: Layout,
    segments: &[Segment; SEGMENT_ROWS],
    leaves: &[Leaf],
    store: &[u8; 98304],
    len: usize,
    c: Counters,
    output: &mut [u8],
) -> Redacted
    requires { Printable layout segments.now leaves.now store.now len }
    ensures { (d : R.Redacted) (report : Text) → Ran d layout segments.now leaves.now store.now report c → RedactedIs d output.old output.new report (Ok result) }
{
    if len <= output.len() {
        render(segments, leaves, store, layout, output);
    }
    Redacted {
        text_len: len,
        report_len: c.report_len,
        rows: c.rows,
    }
}

// Redacts a message whose tables stand in segments and leaves, by a policy whose text is text. `size` bytes are there when its turn begins: its
// own, and those beside it in its file. Its text goes to the front of output, if there is room for it, and its rows to the front of report.
pub fn redact_from(
    policy: &Policy,
    text: &[u8],
    key: u64,
    message: &[u8],
    layout: Layout,
    size: usize,
    segments: &[Segment; SEGMENT_ROWS],
    leaves: &mut [Leaf],
    output: &mut [u8],
    report: &mut [u8],
) -> Result<Redacted, Refusal>
    requires { PolicyHeld text.now policy.now × AnyLoaded message.now text.now size layout segments.now leaves.old }
    ensures { (m : Message) → Loaded message.now m text.now size layout segments.now leaves.old → RedactedIs (redact_from size key (as_policy text.now policy.now) m) output.old output.new report.new result }
{
    let mut store = [0u8; 98304];
    let mut bytes = [0u8; 65536];
    let mut known = [UNKNOWN; LEARNT_MAX];
    let used = copy_at(&mut store, 0, message);
    let on = Setting {
        key,
        separators: layout.separators,
        sweep: policy.sweep,
        segments: layout.segments,
        leaves: layout.leaves,
    };
    let mut run = Run {
        named: [false; LEAVES_MAX],
        done: Ok(Counters {
            rows: 0,
            report_len: 0,
            size,
            used,
            known: 0,
            known_used: 0,
        }),
    };
    run_turns(
        &mut run, on, policy, text, segments, leaves, &mut store, report, &mut bytes, &mut known,
    );
    let counters = run.done?;
    let len = (counters.size + used).saturating_sub(size);
    Ok(print_text(layout, segments, leaves, &store, len, counters, output))
}
