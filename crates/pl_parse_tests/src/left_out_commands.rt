//! Commands that are left out.

/// The words that begin a command that is left out, in lower, upper and mixed case.
pub(crate) const LEFT_OUT_WORDS: &str = r#"
alter
ALTER
aLter
analyze
ANALYZE
Analyze
checkpoint
CHECKPOINT
checkPoint
close
CLOSE
closE
cluster
CLUSTER
Cluster
comment
COMMENT
Comment
copy
COPY
CoPy
deallocate
DEALLOCATE
deAllocate
declare
DECLARE
Declare
discard
DISCARD
Discard
execute
EXECUTE
eXecutE
explain
EXPLAIN
Explain
fetch
FETCH
fetcH
grant
GRANT
Grant
import
IMPORT
Import
listen
LISTEN
Listen
load
LOAD
loAd
lock
LOCK
LOck
merge
MERGE
Merge
move
MOVE
moVE
notify
NOTIFY
Notify
prepare
PREPARE
Prepare
reassign
REASSIGN
reAssign
refresh
REFRESH
Refresh
reindex
REINDEX
ReIndex
reset
RESET
reSet
revoke
REVOKE
Revoke
security
SECURITY
Security
set
SET
sEt
show
SHOW
Show
table
TABLE
tAbLe
truncate
TRUNCATE
Truncate
unlisten
UNLISTEN
unListen
vacuum
VACUUM
Vacuum
values
VALUES
Values
with
WITH
wITH
"#;

/// Lines that begin a command that is left out. One that begins with `--` says what follows.
pub(crate) const LEFT_OUT_COMMANDS: &str = r#"
-- Whole commands.
ALTER TABLE t ADD COLUMN a integer
ANALYZE
CLOSE ALL
COMMENT ON TABLE t IS 'x'
COPY t FROM STDIN
DECLARE c CURSOR FOR SELECT 1
EXECUTE p (1)
EXPLAIN SELECT 1
FETCH NEXT FROM c
GRANT SELECT ON t TO u
LOCK TABLE t
MERGE INTO t USING u ON a WHEN MATCHED THEN DELETE
PREPARE p AS SELECT 1
PREPARE TRANSACTION 'a'
REFRESH MATERIALIZED VIEW v
SET a = 1
SET TRANSACTION READ ONLY
SHOW a
TABLE t
TRUNCATE TABLE t
VALUES (1)
VALUES (1), (2)
WITH q AS (SELECT 1) SELECT 1
-- What stands behind the word is not looked at.
WITH
with with with
ALTER )
SET (
TABLE (a integer)
VALUES
LOCK 'x' 1 , ;
"#;

/// Lines of CREATE or DROP before a word that neither knows.
pub(crate) const LEFT_OUT_DEFINITIONS: &str = r#"
CREATE INDEX i ON t (a)
CREATE UNIQUE INDEX i ON t (a)
CREATE VIEW v AS SELECT 1
create view
CREATE SEQUENCE s START WITH 9223372036854775807
CREATE SCHEMA s
CREATE TEMP TABLE t (a integer)
CREATE TEMPORARY TABLE t (a integer)
CREATE UNLOGGED TABLE t (a integer)
CREATE TYPE a AS (b integer)
CREATE AGGREGATE a (b)
CREATE EXTENSION plpgsql
CREATE CONSTRAINT TRIGGER g AFTER INSERT ON t FOR EACH ROW EXECUTE FUNCTION f()
CREATE EVENT TRIGGER g
CREATE RULE r AS ON INSERT TO t DO NOTHING
CREATE REPLACE FUNCTION f()
CREATE IF NOT EXISTS TABLE t (a integer)
CREATE SELECT
CREATE SELECT 1
CREATE CREATE TABLE t (a integer)
CREATE t (a integer)
CREATE tables t (a integer)
CREATE functions f()
CREATE and
CREATE index (((
DROP INDEX i
DROP VIEW v
drop view
DROP SEQUENCE s
DROP SCHEMA s CASCADE
DROP TYPE a
DROP ROUTINE f
DROP AGGREGATE a (b)
DROP OWNED BY u
DROP IF EXISTS TABLE t
DROP t
DROP tables t
DROP SELECT
DROP SELECT 1
DROP OR REPLACE FUNCTION f
DROP or
DROP DROP TABLE t
DROP index 'x' )
"#;
