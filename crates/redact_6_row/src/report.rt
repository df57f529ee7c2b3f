// The rows of the report.
ghost use Rattle.std.specs.Prelude.{◌≡◌, ◌+◌, ◌≤◌, ◌<◌, ◌^◌, length};
ghost use Rattle.text.specs.Text.{Wrote};
ghost use Rattle.er7_redact.specs.Action.{as_action, ActionHeld};
ghost use Rattle.run_model.specs.Redact.{row, print_row};
ghost use Rattle.er7_table.specs.Table.{as_label};
ghost use Rattle.redact_6_row.specs.Report.{RowAt};
ghost use Rattle.redact_6_row.specs.Inner.{leaf_path};

use er7::message::{Label, Place};
use er7::path;
use er7::path::Path;
use er7_redact::action;
use er7_redact::action::Action;
use text::bytes::byte_at;

// The full path of the leaf at p of the segment g; its name is a text of three bytes.
fn path_of(g: Label, p: Place) -> Path
    ensures { result ≡ leaf_path g p }
{
    Path {
        segment: 0,
        segment_len: 3,
        segment_occurrence: g.occurrence as u64,
        field: p.field as u64,
        repetition: p.repetition as u64,
        component: p.component as u64,
        subcomponent: p.subcomponent as u64,
    }
}

// The length of a row: the leaf at p of the segment g, and the action a, whose replacement stands in text.
pub fn row_len(g: Label, p: Place, a: Action, text: &[u8]) -> usize
    requires { ActionHeld text.now a }
    ensures { (result ≡ length (print_row (row (as_label g) p (as_action text.now a)))) × (result ≤ length text.now + 138) }
{
    let name = [g.a, g.b, g.c];
    path::printed_len(path_of(g, p), &name) + action::printed_len(a, text) + 2
}

// Writes a row to the front of report, and returns its length.
pub fn put_row(report: &mut [u8], g: Label, p: Place, a: Action, text: &[u8]) -> usize
    requires { ActionHeld text.now a × (length (print_row (row (as_label g) p (as_action text.now a))) ≤ length report.old) }
    ensures { Wrote report.old 0 (print_row (row (as_label g) p (as_action text.now a))) report.new result }
{
    let name = [g.a, g.b, g.c];
    let b = path::print(path_of(g, p), &name, report, 0);
    let c = byte_at(report, b, b' ');
    let d = action::print(a, text, report, c);
    byte_at(report, d, b'\n')
}

// Writes a row to report behind the len bytes already there, if it has room, and returns the length with the row in any case.
pub fn row_at(report: &mut [u8], len: usize, g: Label, p: Place, a: Action, text: &[u8]) -> usize
    requires { ActionHeld text.now a × (len + length text.now + 138 < 2 ^ 64) }
    ensures { RowAt report.old len (print_row (row (as_label g) p (as_action text.now a))) report.new result × (result ≤ len + length text.now + 138) }
{
    let end = len + row_len(g, p, a, text);
    if report.len() < end {
        return end;
    }
    put_row(&mut report[len..], g, p, a, text);
    end
}
