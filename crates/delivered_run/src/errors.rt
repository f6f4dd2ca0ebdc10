// Why a run gives nothing.
ghost use Rattle.std.specs.Prelude.{◌≡◌};
ghost use Rattle.counted_net.specs.declared.delivery.DeliveryErr.TheVariants.{Memory};
ghost use Rattle.delivered_run.specs.declared.errors.CourseErr.TheVariants as course;
ghost use Rattle.delivered_run.specs.Drawing.{course_of};

use counted_net::DeliveryErr;
use miner_core::Lost;
use std::alloc::AllocError;

/// Why a run whose tapes are drawn from a source gives nothing.
#[derive(Clone, Copy)]
pub enum CourseErr {
    /// The order of deliveries is refused, or memory ran out.
    Delivery(DeliveryErr),
    /// Words of a tape couldn't be drawn, and their source counted a fault.
    TapeFault,
}

impl From<DeliveryErr> for CourseErr {
    ghost from_gives = { λ d e. e ≡ course.Delivery d };

    fn from(refusal: DeliveryErr) -> CourseErr {
        CourseErr::Delivery(refusal)
    }
}

impl From<AllocError> for CourseErr {
    ghost from_gives = { λ _ e. e ≡ course.Delivery Memory };

    fn from(_: AllocError) -> CourseErr {
        CourseErr::Delivery(DeliveryErr::Memory)
    }
}

impl From<Lost> for CourseErr {
    ghost from_gives = { λ l e. e ≡ course_of l };

    fn from(lost: Lost) -> CourseErr {
        match lost {
            Lost::Memory => CourseErr::Delivery(DeliveryErr::Memory),
            Lost::TapeFault => CourseErr::TapeFault,
        }
    }
}
