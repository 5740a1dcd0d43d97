// The fields of a message's DATA.
ghost use Rattle.std.specs.Prelude.{◌≡◌};
ghost use Rattle.frame.specs.Layout.{data_of};
ghost use Rattle.messages.specs.Fields.{shorter_than};

use frame::data_count;

// 11h: DATA has fewer bytes than this; more are ignored.
pub(crate) fn shorter_than(bundle: &[u8], least: usize) -> bool
    ensures { result ≡ (shorter_than least (data_of bundle.now)).holds }
{
    data_count(bundle) < least
}
