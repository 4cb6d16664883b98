// Where a record stands in the file.
ghost use Rattle.std.specs.Prelude.{◌≡◌};
ghost use Rattle.file.specs.Pairs.{locate_record};
ghost use Rattle.host.specs.Answers.{of_place};

use crate::HostPlace;

#[unsafe(no_mangle)]
pub extern "C" fn sawhekonu_locate_record(file: &[u8], i: usize) -> HostPlace
    ensures { result ≡ of_place (locate_record file.now i) }
{
    HostPlace::from(file::locate_record(file, i))
}
