// The classes of a graph whose walks over members have been looked at.
ghost use Rattle.eclass.specs.Checks.{UnbrokenIn};

use crate::check;
use broken::Broken;
use layout::Graph;

// A graph that `check` has seen: no walk over a list of members leaves the ids, and all lists together are no longer than there are ids.
#[derive(Clone, Copy)]
pub struct Classes<'a> {
    pub g: Graph<'a>,
    ghost unbroken: { UnbrokenIn g.h g.ws.now },
}

impl<'a> Classes<'a> {
    ghost use Rattle.eclass.specs.Checked.{Checked};

    // The classes of a graph, unless a walk is broken.
    pub fn of(g: &Graph<'a>) -> Result<Classes<'a>, Broken>
        ensures { Checked g.now result }
    {
        check(g)?;
        Ok(Classes { g: *g })
    }
}
