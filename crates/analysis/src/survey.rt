// A chart over a delivery with the order that its rules enforce.
ghost use Rattle.std.specs.Prelude.{◌≡◌};
ghost use Rattle.analysis.specs.Judging.{Filled};
ghost use Rattle.analysis.specs.Settings.{scene};

use crate::filling::fill;
use crate::setting::Setting;
use delivery::meaning::Delivery;
use matrix::matrices::OrderMatrix;

// The matrix is filled with that order, so no call has to ask for it.
// It is borrowed: owned, its 2 KiB would be zeroed and copied once more as `of` returns.
#[derive(Drop)]
pub(crate) struct Survey<'a, D: Delivery> {
    pub(crate) setting: Setting<'a, D>,
    pub(crate) order: &'a OrderMatrix,
    ghost filled: { Filled (scene D.rule D.room setting) order.now },
}

impl<'a, D: Delivery> Survey<'a, D> {
    // Clears the matrix and fills it.
    // Inlined, so that LLVM sees `fill` clear the matrix, and drops the zeroing of the caller's new one.
    #[inline(always)]
    pub(crate) fn of(setting: Setting<'a, D>, order: &'a mut OrderMatrix) -> Survey<'a, D>
        ensures { result.setting ≡ setting.entry }
    {
        fill(order, setting.chart, setting.delivery);
        Survey { setting, order }
    }
}
