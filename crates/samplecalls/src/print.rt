// A header and a flow, as a script prints them.
ghost use Rattle.std.specs.Prelude.{◌++◌, Some, codes, decimal};

use model::Flow;
use state::Header;
use std::fmt;

// A header's numbers.
#[derive(Clone, Copy)]
pub struct HeaderText(pub Header);

impl fmt::Display for HeaderText {
    ghost output = { λ h. Some (codes "n " ++ (decimal h.0.containers
        ++ (codes ", flows " ++ (decimal h.0.count ++ (codes ", greatest " ++ decimal h.0.greatest))))) };

    fn fmt<W: fmt::Write>(&self, f: &mut fmt::Formatter<W>) -> fmt::Result {
        let Header {
            containers,
            count,
            greatest,
        } = self.0;
        write!(f, "n {containers}, flows {count}, greatest {greatest}")
    }
}

// A flow's number and ends.
#[derive(Clone, Copy)]
pub struct FlowText(pub Flow);

impl fmt::Display for FlowText {
    ghost output = { λ k. Some (decimal k.0.number
        ++ (codes " " ++ (decimal k.0.from ++ (codes " " ++ decimal k.0.to)))) };

    fn fmt<W: fmt::Write>(&self, f: &mut fmt::Formatter<W>) -> fmt::Result {
        let Flow { number, from, to } = self.0;
        write!(f, "{number} {from} {to}")
    }
}
