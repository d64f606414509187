//! The figures of the rows that are answered.

ghost use Rattle.std.specs.Prelude.{◌≡◌, map};
ghost use Rattle.ipam_data.specs.Updates.{figured, answered};
ghost use Rattle.register_tables.specs.Held.{state_of};

use crate::RowTables;
use ipam_data::replies::{Reply, View, Views};
use prefix_rules::PrefixRules;

impl RowTables {
    /// Sets the figures of a row to those of the state.
    fn figure(&self, view: &mut View)
        ensures { view.new ≡ figured (state_of self.now) view.old }
    {
        match view {
            View::Prefix {
                row,
                depth,
                children,
            } => {
                *depth = self.prefixes.depth_of(row);
                *children = self.prefixes.children_of(row);
            }
            View::Vrf(_) => {}
            View::Rir(_) => {}
            View::Role(_) => {}
            View::Aggregate(_) => {}
            View::IpRange(_) => {}
            View::IpAddress(_) => {}
        }
    }

    /// A row with the figures of the state.
    fn figured(&self, view: View) -> View
        ensures { result ≡ figured (state_of self.now) view }
    {
        let mut view = view;
        self.figure(&mut view);
        view
    }

    /// Rows with the figures of the state.
    fn all_figured(&self, views: Views) -> Views
        ensures { result ≡ map (figured (state_of self.now)) views }
    {
        let mut views = views.into_vec();
        for view in views.iter_mut() {
            self.figure(view);
        }
        Views::of(views)
    }

    /// A reply with the figures of the state: a prefix has its depth and children figure. It takes no memory.
    pub fn answered(&self, reply: Reply) -> Reply
        ensures { result ≡ answered (state_of self.now) reply }
    {
        match reply {
            Reply::Made(view) => Reply::Made(self.figured(view)),
            Reply::MadeMany(views) => Reply::MadeMany(self.all_figured(views)),
            Reply::Changed(view) => Reply::Changed(self.figured(view)),
            Reply::Gone => Reply::Gone,
            Reply::Imported { created, present } => Reply::Imported { created, present },
            Reply::One(view) => Reply::One(self.figured(view)),
            Reply::Page { count, views } => Reply::Page {
                count,
                views: self.all_figured(views),
            },
            Reply::Blocks { vrf, list } => Reply::Blocks { vrf, list },
            Reply::Addrs { vrf, len, list } => Reply::Addrs { vrf, len, list },
            Reply::Percent(figure) => Reply::Percent(figure),
            Reply::Rows(rows) => Reply::Rows(rows),
            Reply::Lines(lines) => Reply::Lines(lines),
            Reply::Refused(refusal) => Reply::Refused(refusal),
        }
    }
}
