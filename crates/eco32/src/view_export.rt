// The exported page view.
ghost use Rattle.std.specs.Prelude.{◌≡◌};
ghost use Rattle.page_view.specs.View.{viewed};
ghost use Rattle.record_calls.specs.Views.{call_view_of};

use page_view::View;

#[unsafe(no_mangle)]
pub extern "C" fn eco32_page_view(ram: &[u8], machine: &[u8], page: u64) -> View
    ensures { viewed result.refusal result.slot result.offset result.length ≡ call_view_of ram.now machine.now page }
{
    record_calls::page_view(ram, machine, page)
}
