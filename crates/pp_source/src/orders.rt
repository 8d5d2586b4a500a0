//! How two numbers or texts are compared.

/// How two numbers or texts are compared.
#[derive(Clone, Copy)]
pub enum Order {
    Equal,
    NotEqual,
    Greater,
    NotLess,
    Less,
    NotGreater,
}

impl Order {
    pub fn of(name: &[u8]) -> Option<Order> {
        match name {
            b"EQ" => Some(Order::Equal),
            b"NE" => Some(Order::NotEqual),
            b"GT" => Some(Order::Greater),
            b"GE" => Some(Order::NotLess),
            b"LT" => Some(Order::Less),
            b"LE" => Some(Order::NotGreater),
            _ => None,
        }
    }

    pub fn holds(self, one: i64, other: i64) -> bool {
        match self {
            Order::Equal => one == other,
            Order::NotEqual => one != other,
            Order::Greater => one > other,
            Order::NotLess => one >= other,
            Order::Less => one < other,
            Order::NotGreater => one <= other,
        }
    }
}
