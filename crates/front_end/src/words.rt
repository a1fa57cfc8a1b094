//! The settings of a front end in words, as they are printed.
//! Texts alone: decides nothing.
ghost use Rattle.std.specs.Prelude.{Some};
ghost use Rattle.front_end.specs.Words.{termination_text, vconn_text, path_text};

use crate::parts::{Path, Termination, Vconn};
use std::fmt;

impl fmt::Display for Termination {
    ghost output = { λ termination. Some (termination_text termination) };

    fn fmt<W: fmt::Write>(&self, f: &mut fmt::Formatter<W>) -> fmt::Result {
        f.write_str(match self {
            Termination::Ra => "Ra",
            Termination::Rp => "Rp",
            Termination::Rd => "Rd",
            Termination::Open => "open",
        })
    }
}

impl fmt::Display for Vconn {
    ghost output = { λ vconn. Some (vconn_text vconn) };

    fn fmt<W: fmt::Write>(&self, f: &mut fmt::Formatter<W>) -> fmt::Result {
        f.write_str(match self {
            Vconn::Off => "off",
            Vconn::Cc1 => "on CC1",
            Vconn::Cc2 => "on CC2",
        })
    }
}

impl fmt::Display for Path {
    ghost output = { λ path. Some (path_text path) };

    fn fmt<W: fmt::Write>(&self, f: &mut fmt::Formatter<W>) -> fmt::Result {
        f.write_str(match self {
            Path::Off => "off",
            Path::Sink => "sinking",
            Path::DefaultSource => "sourcing at default",
            Path::NondefaultSource => "sourcing above default",
        })
    }
}
