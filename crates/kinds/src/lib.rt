// Kinds of element: what an entry of a table may be.
#![tactic(auto)]

mod connection;
mod count;
mod kind;
mod meanings;
mod travel_time;

pub use connection::Connection;
pub use count::Count;
pub use kind::Kind;
pub use travel_time::TravelTime;

#[cfg(test)]
mod tests {
    use super::*;

    #[test]
    fn journeys(rt: HostRuntime) {
        let walk = TravelTime::new(3).times(TravelTime::new(4));
        let none = TravelTime::zero().times(TravelTime::new(5));
        assert_eq!(rt; none.value, 4_294_967_295);
        assert_eq!(rt; walk.plus(none).value, 7);
    }

    #[test]
    fn counts_come_round(rt: HostRuntime) {
        let most = Count::new(4_294_967_295);
        assert_eq!(rt; most.plus(Count::new(2)).value, 1);
        assert_eq!(rt; most.times(most).value, 1);
    }
}
