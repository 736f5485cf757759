// Small problems with their listings, worked by hand.

/// A class of one number, with its finitization and its listing.
pub(crate) const CELL: &str = "class Cell { int v; boolean repOk() { return v > 0; } }";

pub(crate) const FIN: &str =
    "root = \"Cell\"\nfuel = 1000\n[objects]\nCell = 1\n[fields]\n\"Cell.v\" = [{ from = 0, to = 2 }]\n";

pub(crate) const LISTED: &str = "0.1 Cell#0{v=1}\n0.2 Cell#0{v=2}\nvalid 2 tried 3\n";

/// It counts up to 2, and states that it always does.
pub(crate) const COUNTER: &str =
    "class Cell { int v; boolean repOk() { return v < 9; }\n//@ ensures v == \\old(v) + 1;\nvoid inc() { if (v < 2) v = v + 1; } }";

pub(crate) const COUNTED: &str =
    "0.0 pass Cell#0{v=0}\n0.1 pass Cell#0{v=1}\n0.2 ensures 1 Cell#0{v=2}\nvalid 3 failing 1 tried 3\n";

/// Two nodes, each of which has either or none.
pub(crate) const NODES: &str = "class N { N next; boolean repOk() { return true; } }";

pub(crate) const NODES_FIN: &str =
    "root = \"N\"\nfuel = 1000\n[objects]\nN = 2\n[fields]\n\"N.next\" = [\"null\", \"N\"]\n";

pub(crate) const NODES_LISTED: &str =
    "0.0 N#0{next=null}\n0.1 N#0{next=N#0}\n0.2.0 N#0{next=N#1} N#1{next=null}\n0.2.1 N#0{next=N#1} N#1{next=N#0}\n0.2.2 N#0{next=N#1} N#1{next=N#1}\nvalid 5 tried 5\n";
