//! Bodies in boxes, made by the caller: threads whose bodies are of several types.
ghost use Rattle.std.specs.Prelude.{◌≡◌};

use crate::bodies::Body;
use lwkt_base::{Answer, Ask};

impl Body for Box<dyn Body + Drop> {
    ghost polled = { λ b last ask d. (x : _) × ((Body-box b).polled b.value last ask x × (d ≡ record b { value = x })) };

    fn poll(&mut self, last: Answer) -> Ask {
        (**self).poll(last)
    }
}

impl Body for Box<dyn Body + Send + Drop> {
    ghost polled = { λ b last ask d. (x : _) × ((Body-box b).polled b.value last ask x × (d ≡ record b { value = x })) };

    fn poll(&mut self, last: Answer) -> Ask {
        (**self).poll(last)
    }
}
