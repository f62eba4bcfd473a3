// A few products of a network.
use crate::form::{FIRST, Form};
use crate::lists::{at, put_at};
use crate::net::Net;
use crate::span::Span;

/// A group has at most so many products.
pub(crate) const MOST_MEMBERS: usize = 12;

/// Products by their numbers, the least one first.
#[derive(Clone, Copy)]
pub(crate) struct Group {
    members: [u16; MOST_MEMBERS],
    count: u8,
    /// Their columns.
    pub(crate) columns: Form,
}

fn column_of(product: usize) -> usize {
    product.saturating_add(FIRST)
}

impl Group {
    pub(crate) fn none() -> Group {
        Group {
            members: [0; MOST_MEMBERS],
            count: 0,
            columns: Form::zero(),
        }
    }

    pub(crate) fn count(&self) -> usize {
        usize::from(self.count)
    }

    pub(crate) fn member(&self, place: usize) -> usize {
        usize::from(at(&self.members, place, 0))
    }

    pub(crate) fn has(&self, product: usize) -> bool {
        self.columns.has(column_of(product))
    }

    /// The group and a product more, if it isn't there.
    pub(crate) fn with(self, product: usize) -> Group {
        let mut group = self;
        if self.has(product) || self.count() >= MOST_MEMBERS {
            return group;
        }
        let mut place = self.count();
        for _ in 0..self.count() {
            if place > 0 && self.member(place - 1) > product {
                put_at(&mut group.members, place, at(&self.members, place - 1, 0));
                place -= 1;
            }
        }
        put_at(&mut group.members, place, product.min(65535) as u16);
        group.count = self.count.saturating_add(1);
        group.columns = self.columns.with(column_of(product));
        group
    }

    /// A number by which the group is known, most likely.
    pub(crate) fn hash(&self) -> u64 {
        let mut hash = 0x94D0_49BB_1331_11EBu64;
        for place in 0..self.count() {
            let next = hash ^ (self.member(place) as u64).wrapping_add(1);
            hash = next.wrapping_mul(0x9E37_79B9_7F4A_7C15);
            hash ^= hash >> 29;
        }
        hash
    }

    /// Which members are in a form.
    pub(crate) fn pattern(&self, form: &Form) -> u16 {
        let mut pattern = 0u16;
        for place in 0..self.count() {
            if form.has(column_of(self.member(place))) {
                pattern |= 1 << (place % 16);
            }
        }
        pattern
    }

    /// What the factors of the members span without the members.
    pub(crate) fn span(&self, net: &Net) -> Span {
        let mut span = Span::none();
        for place in 0..self.count() {
            let factors = net.product(self.member(place));
            span.push(&factors.one.without(&self.columns));
            span.push(&factors.other.without(&self.columns));
        }
        span
    }

    // Whether a product's factors are sums of a span's forms and of members.
    fn covers(&self, span: &Span, net: &Net, product: usize) -> bool {
        let factors = net.product(product);
        span.spans(&factors.one.without(&self.columns))
            && span.spans(&factors.other.without(&self.columns))
    }

    /// The group with all products whose factors its span has, as far as there is room.
    pub(crate) fn closed(&self, net: &Net, span: &Span) -> Group {
        let mut group = *self;
        for _ in 0..MOST_MEMBERS {
            let before = group;
            for product in 0..net.products.len() {
                if !before.has(product) && before.covers(span, net, product) {
                    group = group.with(product);
                }
            }
            if group.count == before.count {
                return group;
            }
        }
        group
    }

    /// Whether a product touches the group: the one reads the other, or both have a factor in common.
    pub(crate) fn touches(&self, net: &Net, span: &Span, product: usize) -> bool {
        let factors = net.product(product);
        if !factors.needs().within(self.columns).is_empty() {
            return true;
        }
        for place in 0..self.count() {
            if net
                .product(self.member(place))
                .needs()
                .has(column_of(product))
            {
                return true;
            }
        }
        let (one, _) = span.reduced(&factors.one);
        let (other, _) = span.reduced(&factors.other);
        one.is_empty() || other.is_empty() || one.is(&other)
    }
}
