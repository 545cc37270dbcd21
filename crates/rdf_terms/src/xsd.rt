//! The IRIs of the datatypes of XML Schema that most literals have (RDF 1.1 Concepts, section 5.1).

pub const STRING: &str = "http://www.w3.org/2001/XMLSchema#string";

pub const BOOLEAN: &str = "http://www.w3.org/2001/XMLSchema#boolean";

pub const DECIMAL: &str = "http://www.w3.org/2001/XMLSchema#decimal";

pub const INTEGER: &str = "http://www.w3.org/2001/XMLSchema#integer";

pub const DOUBLE: &str = "http://www.w3.org/2001/XMLSchema#double";

pub const DATE: &str = "http://www.w3.org/2001/XMLSchema#date";

pub const TIME: &str = "http://www.w3.org/2001/XMLSchema#time";

pub const DATE_TIME: &str = "http://www.w3.org/2001/XMLSchema#dateTime";
