// The three kinds.
ghost use Rattle.kinds.specs.Meanings.{no_count, count_plus, count_times, no_path, time_plus, time_times, no_connection, connection_plus, connection_times};
ghost use Rattle.kinds.specs.Elements.{count_associative, count_commutative, count_neutral, time_associative, time_commutative, time_neutral, connection_associative, connection_commutative, connection_neutral};

use crate::connection::Connection;
use crate::count::Count;
use crate::kind::Kind;
use crate::travel_time::TravelTime;

impl Kind for Count {
    ghost nought = { no_count };

    ghost joined = { count_plus };

    ghost chained = { count_times };

    ghost associative = { count_associative };

    ghost commutative = { count_commutative };

    ghost neutral = { count_neutral };

    fn zero() -> Count {
        Count { value: 0 }
    }

    fn plus(self, other: Count) -> Count {
        Count {
            value: self.value.wrapping_add(other.value),
        }
    }

    fn times(self, other: Count) -> Count {
        Count {
            value: self.value.wrapping_mul(other.value),
        }
    }
}

impl Kind for TravelTime {
    ghost nought = { no_path };

    ghost joined = { time_plus };

    ghost chained = { time_times };

    ghost associative = { time_associative };

    ghost commutative = { time_commutative };

    ghost neutral = { time_neutral };

    fn zero() -> TravelTime {
        TravelTime {
            value: 4_294_967_295,
        }
    }

    fn plus(self, other: TravelTime) -> TravelTime {
        TravelTime {
            value: self.value.min(other.value),
        }
    }

    fn times(self, other: TravelTime) -> TravelTime {
        TravelTime {
            value: self.value.saturating_add(other.value),
        }
    }
}

impl Kind for Connection {
    ghost nought = { no_connection };

    ghost joined = { connection_plus };

    ghost chained = { connection_times };

    ghost associative = { connection_associative };

    ghost commutative = { connection_commutative };

    ghost neutral = { connection_neutral };

    fn zero() -> Connection {
        Connection { linked: false }
    }

    fn plus(self, other: Connection) -> Connection {
        Connection {
            linked: self.linked | other.linked,
        }
    }

    fn times(self, other: Connection) -> Connection {
        Connection {
            linked: self.linked & other.linked,
        }
    }
}
