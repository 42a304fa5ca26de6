// The longer texts that the program prints.
pub const OPENING: &str = "\
Two sites keep the same tables, each in cells of its own choice. A placement says which cell holds
an entry and nothing else, so no answer may show the choice. Before the first call every cell holds
a marker (7777 for times and counts, yes for connections), to tell the cells that no call writes.";

pub const OFFICE: &str = "
1. The timetable office keeps its tables row by row, a row every 7 cells. It puts the direct
   journeys into its left table and copies that to its right.";

pub const ROUTER: &str = "
2. The freight router keeps its tables in nested blocks, four rows by four columns. It reads the
   office's descriptor, so it knows where each entry lies, and copies both tables to its own cells.";

pub const DIRECT: &str =
    "   The direct journeys as the router has them, in minutes ('-': no path):";

pub const CALLS: &str = "
3. Both make one list of calls: a whole run, with some calls that have to be declined.";

pub const DECLINED: &str = "   \
Refusal 17: the column lies outside the table. Refusal 19: the tile order is over 12. Not offered:
   there are no steps before a run begins, and while it lasts no table can be set.";

pub const TIMES: &str = "
4. Both make the product once more, the office one tile product at a time and the router all at
   once. The best times with exactly two legs, in minutes ('-': no path):";

pub const COUNTS: &str = "
5. The same exchange and the same product for counts. How many routes have exactly two legs:";

pub const CONNECTIONS: &str = "
6. The same for connections. Whether there is a route with exactly two legs:";
