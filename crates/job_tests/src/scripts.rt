// The scripts of these tests.

/// Selects the words of an append table.
pub const SELECT_APPEND: &str =
    "CREATE TABLE t (word STRING NOT NULL) WITH ('changelog' = 'append');\
    CREATE TABLE out_t (word STRING) WITH ('changelog' = 'retract');\
    INSERT INTO out_t SELECT word FROM t;";

/// Counts the rows of each word of an append table.
pub const COUNT_APPEND: &str =
    "CREATE TABLE t (word STRING NOT NULL) WITH ('changelog' = 'append');\
    CREATE TABLE out_t (word STRING, n BIGINT) WITH ('changelog' = 'retract');\
    INSERT INTO out_t SELECT word, COUNT(*) FROM t GROUP BY word;";

/// Counts all rows of a table.
pub const COUNT_ALL: &str = "CREATE TABLE t (word STRING NOT NULL);\
    CREATE TABLE out_t (n BIGINT) WITH ('changelog' = 'retract');\
    INSERT INTO out_t SELECT COUNT(*) FROM t;";

/// Counts the rows of each word of a retract table.
pub const COUNT_RETRACT: &str =
    "CREATE TABLE t (word STRING NOT NULL) WITH ('changelog' = 'retract');\
    CREATE TABLE out_t (word STRING, n BIGINT) WITH ('changelog' = 'retract');\
    INSERT INTO out_t SELECT word, COUNT(*) FROM t GROUP BY word;";

/// No row of a table.
pub const KEEPS_NOTHING: &str =
    "CREATE TABLE t (word STRING NOT NULL) WITH ('changelog' = 'append');\
    CREATE TABLE out_t (word STRING) WITH ('changelog' = 'retract');\
    INSERT INTO out_t SELECT word FROM t WHERE FALSE;";

/// Rows of a, with those of b that have their k.
pub const LEFT_JOIN: &str = "CREATE TABLE a (id INT PRIMARY KEY NOT ENFORCED, k INT);\
    CREATE TABLE b (k INT PRIMARY KEY NOT ENFORCED, x STRING) WITH ('changelog' = 'retract');\
    CREATE TABLE out_t (id INT, x STRING) WITH ('changelog' = 'retract');\
    INSERT INTO out_t SELECT a.id, b.x FROM a LEFT JOIN b ON a.k = b.k;";

/// Orders with their customers' cities, in two subtasks, into a table without a key.
pub const LATE_RETRACTION: &str =
    "CREATE TABLE orders (id INT PRIMARY KEY NOT ENFORCED, cust INT NOT NULL) WITH ('changelog' = 'retract');\
    CREATE TABLE customers (cid INT PRIMARY KEY NOT ENFORCED, city STRING);\
    CREATE TABLE out_t (id INT, city STRING) WITH ('changelog' = 'retract');\
    SET 'table.exec.resource.default-parallelism' = '2';\
    INSERT INTO out_t SELECT o.id, c.city FROM orders AS o JOIN customers AS c ON o.cust = c.cid;";
