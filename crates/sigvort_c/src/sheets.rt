// A call sheet, from bytes to answers.
ghost use Rattle.std.specs.Prelude.{◌≡◌, length, []};
ghost use Rattle.book.specs.Session.{leaves};
ghost use Rattle.sheet.specs.Sheet.{ran};
ghost use Rattle.forms.specs.Text as text-spec;
ghost use Rattle.sheet.specs.Sheet as spec;

// The entry for hosts: as `run`, with no positions lent.
#[unsafe(no_mangle)]
pub extern "C" fn sigvort_run(sheet: &[u8], out: &mut [u8]) -> u32
    ensures { let x = ran sheet.now (length out.old) in (result ≡ spec.result x) × (out.new ≡ text-spec.written 0 (leaves [] x) out.old) }
{
    desk::sigvort_run(sheet, out)
}
