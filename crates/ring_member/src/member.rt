// What a member is made of.
ghost use Rattle.ring_member.specs.Views.{IsWhole};
ghost use Rattle.member_orders.specs.Views as ordering;

use crate::progress::Progress;
use member_orders::Orders;
use pond_base::MemberId;
use std::alloc::Global;

/// A member of a ring of 3f + 1 members. Member 0 is the primary.
#[derive(Drop)]
pub struct Member {
    pub(crate) alloc: Global,
    pub(crate) id: MemberId,
    pub(crate) progress: Progress,
    pub(crate) orders: Orders,
    ghost whole: { IsWhole progress },
    ghost orders_whole: { ordering.IsWhole orders },
}
