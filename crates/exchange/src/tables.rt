// Tables and lists as they are printed.
use crate::network::Zone;
use crate::replies::{Reply, Told};
use crate::shown::{Found, Shown};
use crate::site::Site;
use calls::Table;
use std::fmt;

// A table of a site, with the zones as the heads of rows and columns.
#[derive(Drop)]
pub struct Sheet<'a, E> {
    pub site: &'a Site<E>,
    pub table: Table,
}

impl<E: Shown> Sheet<'_, E> {
    // One row: the journeys from one zone to each.
    fn write_row<W: fmt::Write>(&self, f: &mut fmt::Formatter<W>, from: Zone) -> fmt::Result {
        write!(f, "\n     {from:<9}")?;
        for to in Zone::ALL {
            let entry = Found(self.site.entry(self.table, from, to));
            write!(f, "{entry:>9}")?;
        }
        Ok(())
    }
}

impl<E: Shown> fmt::Display for Sheet<'_, E> {
    fn fmt<W: fmt::Write>(&self, f: &mut fmt::Formatter<W>) -> fmt::Result {
        f.write_str("              ")?;
        for to in Zone::ALL {
            write!(f, "{to:>9}")?;
        }
        for from in Zone::ALL {
            self.write_row(f, from)?;
        }
        Ok(())
    }
}

// The list of calls that both sites made, each with the answers of the two side by side.
#[derive(Drop)]
pub struct Transcript<'a, E>(pub &'a [Reply<E>]);

impl<E: Shown> fmt::Display for Transcript<'_, E> {
    fn fmt<W: fmt::Write>(&self, f: &mut fmt::Formatter<W>) -> fmt::Result {
        f.write_str("     call                            office          router")?;
        for reply in self.0 {
            if let (Some(office), Some(router)) = (reply.office, reply.router) {
                let words = reply.words;
                let office = Told(office);
                let router = Told(router);
                write!(f, "\n     {words:<32}{office:<16}{router}")?;
            }
        }
        Ok(())
    }
}
