//! Links to other machines: who makes them, and who takes those that others make.
ghost use Rattle.std.specs.Prelude.{◌≡◌, ◌+◌, ◌≤◌, ◌∷◌, [], ℕ, Bool, List, IfOk, is_ok};
ghost use Rattle.std.specs.declared.option.Option.{Option};
ghost use Rattle.std.specs.Option.{option_to_list};
ghost use Rattle.dp_outside.specs.Causes.{HasCause};
ghost use Rattle.dp_outside.specs.Links.{CountsReturned, Dial, Door, Link, link, made};
ghost use Rattle.dp_outside.specs.Reports.{BeginsEmpty, grown};

use crate::{Failed, Host, Sink, Source};

/// What makes links to other machines.
pub trait Dialer: Sized + Send + Drop {
    type In: Source + Send + Drop;

    type Out: Sink + Send + Drop;

    /// How often it has failed.
    ghost faults: { Self → ℕ };

    /// How often a link came back that had failed.
    ghost returned: { Self → ℕ };

    /// What it was asked for so far, in order, where it tells that.
    ghost dials: { Self → Option (List Dial) };

    /// The links that came back so far, in order, as they reported then, where it tells that.
    ghost retired: { Self → Option (List Link) };

    /// The gates that it was asked for so far, in order: the port of each, and whether it was opened, where it can
    /// open some and tells that.
    ghost asked_gates: { Self → Option (List (ℕ × Bool)) };

    /// The gates that were shut so far, in order, as they reported then, where it can open some and tells that.
    ghost shut_doors: { Self → Option (List Door) };

    /// Makes a link. Its counts of faults begin with 0, and its source has given nothing. It may wait.
    fn dial(&mut self, host: &Host, port: u16) -> Result<(Self::In, Self::Out), Failed>
        ensures source { IfOk result (λ link. Self.In.faults link.0 ≡ 0) }
        ensures sink { IfOk result (λ link. Self.Out.faults link.1 ≡ 0) }
        ensures unread { IfOk result (λ link. BeginsEmpty (Self.In.given link.0)) }
        ensures cause { HasCause (faults self.old) (faults self.new) result }
        ensures dials { dials self.new ≡ grown (dials self.old) (record {
          host = host.now;
          port = port;
          made = made (λ two. link Self.In.Source Self.Out.Sink two.0 two.1) result;
        } ∷ []) }
        ensures returned { returned self.new ≡ returned self.old }
        ensures retired { retired self.new ≡ retired self.old }
        ensures requested { asked_gates self.new ≡ asked_gates self.old }
        ensures shut { shut_doors self.new ≡ shut_doors self.old };

    /// Takes back a link. It cannot fail.
    fn retire(&mut self, source: Self::In, sink: Self::Out)
        ensures faults { faults self.new ≡ faults self.old }
        ensures returned { CountsReturned (Self.In.faults source + Self.Out.faults sink) (returned self.old)
            (returned self.new) }
        ensures later { returned self.old ≤ returned self.new }
        ensures dials { dials self.new ≡ dials self.old }
        ensures retired { retired self.new
            ≡ grown (retired self.old) (link Self.In.Source Self.Out.Sink source sink ∷ []) }
        ensures requested { asked_gates self.new ≡ asked_gates self.old }
        ensures shut { shut_doors self.new ≡ shut_doors self.old };

    /// A second dialer beside this one. Its counts begin with 0, and what it tells with nothing.
    fn twin(&mut self) -> Result<Self, Failed>
        ensures fresh { IfOk result (λ twin. faults twin ≡ 0) }
        ensures fresh_returned { IfOk result (λ twin. returned twin ≡ 0) }
        ensures fresh_dials { IfOk result (λ twin. BeginsEmpty (dials twin)) }
        ensures fresh_retired { IfOk result (λ twin. BeginsEmpty (retired twin)) }
        ensures fresh_requested { IfOk result (λ twin. BeginsEmpty (asked_gates twin)) }
        ensures fresh_shut { IfOk result (λ twin. BeginsEmpty (shut_doors twin)) }
        ensures cause { HasCause (faults self.old) (faults self.new) result }
        ensures returned { returned self.new ≡ returned self.old }
        ensures dials { dials self.new ≡ dials self.old }
        ensures retired { retired self.new ≡ retired self.old }
        ensures requested { asked_gates self.new ≡ asked_gates self.old }
        ensures shut { shut_doors self.new ≡ shut_doors self.old };
}

/// What gives the links that other machines make.
pub trait Gate: Sized + Send + Drop {
    type In: Source + Send + Drop;

    type Out: Sink + Send + Drop;

    /// How often it has failed.
    ghost faults: { Self → ℕ };

    /// How often a link came back that had failed.
    ghost returned: { Self → ℕ };

    /// The port that others ask for. It never changes.
    ghost port: { Self → ℕ };

    /// Of each link that it was asked for so far, in order, whether it gave one, where it tells that.
    ghost accepts: { Self → Option (List Bool) };

    /// The links that it has given so far, in order, as they reported when they were given, where it tells that.
    ghost accepted: { Self → Option (List Link) };

    /// The links that came back so far, in order, as they reported then, where it tells that.
    ghost retired: { Self → Option (List Link) };

    /// The next link and the host at its other end. Its counts of faults begin with 0, and its source has given
    /// nothing. It may wait.
    fn accept(&mut self) -> Result<(Self::In, Self::Out, Host), Failed>
        ensures source { IfOk result (λ link. Self.In.faults link.0 ≡ 0) }
        ensures sink { IfOk result (λ link. Self.Out.faults link.1 ≡ 0) }
        ensures unread { IfOk result (λ link. BeginsEmpty (Self.In.given link.0)) }
        ensures cause { HasCause (faults self.old) (faults self.new) result }
        ensures accepts { accepts self.new ≡ grown (accepts self.old) (is_ok result ∷ []) }
        ensures accepted { accepted self.new ≡ grown (accepted self.old)
            (option_to_list (made (λ three. link Self.In.Source Self.Out.Sink three.0 three.1) result)) }
        ensures returned { returned self.new ≡ returned self.old }
        ensures port { port self.new ≡ port self.old }
        ensures retired { retired self.new ≡ retired self.old };

    /// Takes back a link. It cannot fail.
    fn retire(&mut self, source: Self::In, sink: Self::Out)
        ensures faults { faults self.new ≡ faults self.old }
        ensures returned { CountsReturned (Self.In.faults source + Self.Out.faults sink) (returned self.old)
            (returned self.new) }
        ensures later { returned self.old ≤ returned self.new }
        ensures port { port self.new ≡ port self.old }
        ensures accepts { accepts self.new ≡ accepts self.old }
        ensures accepted { accepted self.new ≡ accepted self.old }
        ensures retired { retired self.new
            ≡ grown (retired self.old) (link Self.In.Source Self.Out.Sink source sink ∷ []) };

    /// A second gate of the same port. Its counts begin with 0, and what it tells with nothing.
    fn twin(&mut self) -> Result<Self, Failed>
        ensures fresh { IfOk result (λ twin. faults twin ≡ 0) }
        ensures fresh_returned { IfOk result (λ twin. returned twin ≡ 0) }
        ensures same_port { IfOk result (λ twin. port twin ≡ port self.old) }
        ensures fresh_accepts { IfOk result (λ twin. BeginsEmpty (accepts twin)) }
        ensures fresh_accepted { IfOk result (λ twin. BeginsEmpty (accepted twin)) }
        ensures fresh_retired { IfOk result (λ twin. BeginsEmpty (retired twin)) }
        ensures cause { HasCause (faults self.old) (faults self.new) result }
        ensures returned { returned self.new ≡ returned self.old }
        ensures port { port self.new ≡ port self.old }
        ensures accepts { accepts self.new ≡ accepts self.old }
        ensures accepted { accepted self.new ≡ accepted self.old }
        ensures retired { retired self.new ≡ retired self.old };
}

/// What makes links and opens gates.
pub trait Net: Dialer {
    type Door: Gate + Drop;

    /// Opens a gate at a port. Its counts begin with 0, and what it tells with nothing.
    fn gate(&mut self, port: u16) -> Result<Self::Door, Failed>
        ensures fresh { IfOk result (λ door. Self.Door.faults door ≡ 0) }
        ensures fresh_returned { IfOk result (λ door. Self.Door.returned door ≡ 0) }
        ensures port { IfOk result (λ door. Self.Door.port door ≡ port) }
        ensures fresh_accepts { IfOk result (λ door. BeginsEmpty (Self.Door.accepts door)) }
        ensures fresh_accepted { IfOk result (λ door. BeginsEmpty (Self.Door.accepted door)) }
        ensures fresh_retired { IfOk result (λ door. BeginsEmpty (Self.Door.retired door)) }
        ensures cause { HasCause (Self.faults self.old) (Self.faults self.new) result }
        ensures returned { Self.returned self.new ≡ Self.returned self.old }
        ensures dials { Self.dials self.new ≡ Self.dials self.old }
        ensures retired { Self.retired self.new ≡ Self.retired self.old }
        ensures requested { Self.asked_gates self.new ≡ grown (Self.asked_gates self.old) ((port, is_ok result) ∷ []) }
        ensures shut { Self.shut_doors self.new ≡ Self.shut_doors self.old };

    /// Takes back a gate. It cannot fail.
    fn shut(&mut self, door: Self::Door)
        ensures faults { Self.faults self.new ≡ Self.faults self.old }
        ensures returned { CountsReturned (Self.Door.faults door + Self.Door.returned door)
            (Self.returned self.old) (Self.returned self.new) }
        ensures later { Self.returned self.old ≤ Self.returned self.new }
        ensures dials { Self.dials self.new ≡ Self.dials self.old }
        ensures retired { Self.retired self.new ≡ Self.retired self.old }
        ensures requested { Self.asked_gates self.new ≡ Self.asked_gates self.old }
        ensures shut { Self.shut_doors self.new ≡ grown (Self.shut_doors self.old) (record {
          port = Self.Door.port door;
          accepts = Self.Door.accepts door;
          accepted = Self.Door.accepted door;
          retired = Self.Door.retired door;
        } ∷ []) };
}
